//! The effect of a checked statement on a view: its result, changes, count, draws and code are
//! those of the definition, which filters and orders the whole table.
#![tactic(auto)]

mod candidates;
mod change;
mod codes;
mod effect;
mod insert;
mod order;
mod read;
mod row;
mod rows;
mod size;
mod sought;
mod stored;
mod view;
mod write;

pub use effect::{Change, EvalFault, ReadEffect, WriteEffect};
pub use read::eval_read;
pub use row::Row;
pub use view::TableView;
pub use write::eval_write;
