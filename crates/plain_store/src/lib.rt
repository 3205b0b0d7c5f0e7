//! One store as a plain slow program: which answers its table allows, exactly, which requests are
//! crossed or wait, and what posts and answers leave.
#![tactic(auto)]

mod answering;
mod blank;
mod copying;
mod crossing;
mod data;
mod given;
mod holding;
mod laws;
mod marking;
mod posting;
mod sessions;
mod steps;
mod waiting;

pub use answering::may_act;
pub use crossing::is_crossed;
pub use data::{Database, Phase, Wanted, Work};
pub use laws::{commits_keep_rows, first_updater_wins};
pub use posting::{may_ask, may_post};
pub use waiting::{is_held_up, is_in_cycle};
