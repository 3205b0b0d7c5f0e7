//! Tables of cases: in each line what is asked and what is to be told.
#![tactic(auto)]

mod around;
mod bytes;
mod repeated;
mod table;
mod told;

pub use around::Around;
pub use bytes::{bytes_of, put_spelled};
pub use repeated::put_lines;
pub use table::{Kinds, run_table, run_tables};
pub use told::Told;
