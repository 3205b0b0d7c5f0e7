//! The journal of a play: what took place, one line an event.
#![tactic(auto)]

mod answers;
mod calls;
mod event;
mod header;
mod orders;
mod outcomes;
mod pieces;
mod print;

pub use event::Event;
pub use header::print_header;
pub use print::print_event;
