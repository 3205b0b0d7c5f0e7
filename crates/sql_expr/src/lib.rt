//! Reads expressions of SQL from their tokens: what is of the grammar is read, as its one tree, and
//! a fault is at the first token at which no expression can go on.
#![tactic(auto)]

mod front;
mod marks;
mod opening;
mod read;
mod reading;
mod words;

pub use read::{NESTING_LIMIT, read_expr, read_front};
