//! A database in memory: a log of committed change sets, and a seat for each session.
//!
//! A table for trials, and statements over it.
#![tactic(auto)]

mod asking;
mod backend;
mod conflict;
mod cycle;
mod grant;
mod phase;
mod room;
mod seat;
mod serving;
mod store;
mod transaction;
mod trials;
mod verdict;
mod waiting;

pub use store::MemoryStore;
pub use trials::{delete_of, insert_of, select_of, serial_insert_of, trial_tables, update_of};
