//! What a statement gives a transaction that sees committed sets of changes and its own changes.
#![tactic(auto)]

mod chain;
mod change;
mod gathered;
mod index;
mod laws;
mod layers;
mod log;
mod outcome;
mod rows;
mod serials;
mod shown;
mod sight;
mod spot;

pub use change::ChangeSet;
pub use index::Index;
pub use laws::{answers_have_their_form, rows_stay_in_their_tables};
pub use log::is_any_changed;
pub use outcome::{Outcome, outcome_at, outcome_of, table_in};
pub use rows::rows_of;
pub use serials::NextNumbers;
pub use spot::{Spot, has_spot, has_spot_in, is_spot};
