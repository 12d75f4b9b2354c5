//! Keys, bodies and decks: a program as a list of instances, each with its items.
#![tactic(auto)]

mod body;
mod deck;
mod entry;
mod fold;
mod item;
mod key;
pub mod laws;
mod range;
mod repeat;

pub use body::Body;
pub use deck::Deck;
pub use item::{Item, Operands};
pub use key::{Arg, Key};
pub use repeat::first_repeat;
