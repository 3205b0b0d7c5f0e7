//! The one text of a schema.
#![tactic(auto)]

mod column;
mod laws;
mod print;

pub use laws::tables_in_range;
pub use print::print_schema;
