//! Names, kinds and the first fault of a source.
#![tactic(auto)]

mod call;
mod checked;
mod declare;
mod definitions;
mod fault;
mod first_parts;
mod laws;
mod names;
mod numbers;
mod params;
mod parts;
mod scope;
mod scopes;
mod set;
mod source;
mod statements;
mod want;
mod wires;

pub use checked::Checked;
pub use fault::TypeFault;
pub use laws::well_typed_sources_have_typed_functions;
pub use source::check;
pub use want::Want;
