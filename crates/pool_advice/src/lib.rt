//! What an operator is told of a configuration that is refused: each faulty line, with what its
//! parameter takes. A line is told of exactly where it is a fault to the reader.
#![tactic(auto)]

mod fault;
mod faults;
mod lines;
mod missing;
mod telling;
mod wanted;

pub use fault::{LineFault, Refusal};
pub use faults::{first_is_told, line_faults};
pub use missing::missing_names;
pub use wanted::{Wanted, wanted_of};
