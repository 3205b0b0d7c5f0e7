//! A session's client: its bytes, in whatever pieces they come, to orders, and outcomes to bytes.
#![tactic(auto)]

mod allowed;
mod answering;
mod asking;
mod due;
mod extended;
mod input;
mod laws;
mod messages;
mod output;
mod queries;
mod wire;

pub use allowed::may_answer;
pub use laws::pieces_are_one;
pub use wire::{Wire, WireStep};
