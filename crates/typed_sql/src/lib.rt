//! Expressions of statements by their types. What an expression is at its place, or its first
//! fault in
//! the order of the text, is what the rules of types say.
#![tactic(auto)]

mod asks;
mod fault;
mod kinds;
mod leaf;
mod look_up;
mod own;
mod scope;
mod typed;
mod typing;

pub use asks::{Asks, Takes};
pub use fault::{
    CheckFault, column_set_twice, column_twice, no_table, not_in_profile, too_many_columns,
    wrong_number,
};
pub use kinds::{asks_bool, asks_column, asks_limit, asks_nothing, or_text};
pub use leaf::Known;
pub use schema::{ColumnDef, TableDef};
pub use scope::Scope;
pub use typed::{TypedExpr, TypedForm, TypedProductPart, TypedSumPart};
pub use typing::{Check, typed_at};
