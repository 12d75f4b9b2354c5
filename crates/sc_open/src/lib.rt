//! OpenQASM 2.0: gate lists written as OpenQASM, and the texts of this profile read back.
#![tactic(auto)]

pub mod laws;
mod line;
mod open_line;
mod reader;
mod text;
mod writer;

pub use line::Line;
pub use reader::{OpenFault, read_open};
pub use text::OpenText;
pub use writer::{write_lines, write_open};
