//! The trees of SQL statements. They hold no address: two trees are equal where they say the same.
#![tactic(auto)]

mod copying;
mod copying_statement;
mod expr;
mod statement;

pub use expr::{Comparison, Expr, ProductPart, ProductSign, SumPart};
pub use statement::{
    Cell, Delete, Insert, OrderItem, Select, SelectItem, SelectList, SetItem, Statement, Update,
};
