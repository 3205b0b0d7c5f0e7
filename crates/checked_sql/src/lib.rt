//! Checked statements: whether one is of a catalogue, and values in place of its parameters. What
//! is of a catalogue has numbers that are there and nodes of the types that the rules give them;
//! binding changes the parameters alone.
//!
//! Copies of checked statements and of catalogues: each is equal to what was copied.
#![tactic(auto)]

mod bind_expr;
mod binding;
mod catalogues;
mod expressions;
mod kinds;
mod names;
mod nodes;
mod of_catalogue;
mod read;
mod statements;
mod values;
mod write;

pub use binding::bind;
pub use catalogues::catalogue_copied;
pub use of_catalogue::is_of;
pub use statements::checked_copied;
pub use values::is_value;
