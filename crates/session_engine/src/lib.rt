//! The session machine that the product runs: each call takes what has taken place, and what is due
//! is asked for.
#![tactic(auto)]

mod answers;
mod ask;
mod call;
mod chain;
mod choice;
mod due;
mod event;
mod hand;
mod laws;
mod may;
mod order;
mod session;
mod standing;

pub use answers::Answers;
pub use ask::Ask;
pub use due::Due;
pub use laws::{commit_wants_nothing, unread_answers_are_dropped};
pub use session::Core;
pub use standing::Standing;
