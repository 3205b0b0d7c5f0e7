//! Statements checked against a catalogue. What a SELECT, INSERT, UPDATE or DELETE is over the
//! tables, or its first fault in the order of its text, is what the rules say.
#![tactic(auto)]

mod change;
mod checked;
mod checks;
mod insert;
mod naming;
mod parameters;
mod select;
mod tables;

pub use checked::{
    Checked, CheckedBody, CheckedChange, CheckedInsert, CheckedRead, CheckedRemove, ColumnDesc,
    OrderKey, TypedCell, TypedSet,
};
pub use checks::{check, is_checked};
pub use schema::{Catalogue, ColumnDef, Fill, SchemaFault, TableDef, read_schema};
pub use typed_sql::{CheckFault, TypedExpr, TypedForm, TypedProductPart, TypedSumPart};
