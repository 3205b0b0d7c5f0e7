//! The one text of a statement.
#![tactic(auto)]

mod between;
mod expression;
mod leaf;
mod listed;
mod quoting;
mod statement;
mod writer;

pub use quoting::{push_name, push_string};
pub use statement::print_statement;
