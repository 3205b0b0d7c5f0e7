//! How a session begins: what a start message leads to, and what a client that is let in is told.
#![tactic(auto)]

mod greeting;
mod opening;

pub use greeting::{Greeting, Rejection, greeting_of};
pub use opening::opening_bytes;
