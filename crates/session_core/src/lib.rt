//! One session's statements over the backends, each in a transaction of its own.
#![tactic(auto)]

mod ask;
mod statement;

pub use statement::run_statement;
