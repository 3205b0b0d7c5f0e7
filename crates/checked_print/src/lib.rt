//! Checked statements as texts of SQL: each is written as one statement over the names of its
//! catalogue's tables and columns.
#![tactic(auto)]

mod expression;
mod laws;
mod place;
mod print;
mod select;
mod speller;
mod value;
mod write;

pub use laws::moments_are_printed;
pub use print::{print_checked, spelled_statement};
