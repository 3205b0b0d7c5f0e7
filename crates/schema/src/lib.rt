//! Schemas: the tables and columns that a text of CREATE TABLE statements says. A text is read
//! exactly where it is of the grammar and meets the rules; a fault is at the first token that is
//! not.
#![tactic(auto)]

mod catalogue;
mod column_type;
mod constant;
mod fault;
mod laws;
mod open;
mod read;
mod step;
mod text;

pub use catalogue::{Catalogue, ColumnDef, Fill, TableDef};
pub use fault::SchemaFault;
pub use laws::{a_text_is_faulty_in_one_line, what_begins_a_schema_goes_on};
pub use read::read_schema;
