//! What a session is ordered to do for its client, and what becomes of an order. Each order has the
//! moment at which it was given.
#![tactic(auto)]

mod order;
mod outcome;

pub use order::{Order, OrderBody};
pub use outcome::{Outcome, Tag};
