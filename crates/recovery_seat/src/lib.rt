//! One step of one session of a play, whose client may have ordered a recovery.
#![tactic(auto)]

mod calling;
mod ending;
mod hearing;
mod laws;
mod layout;
mod ordering;
mod place;
mod posting;
mod step;
mod swapping;

pub use laws::without_recoveries;
pub use place::Place;
pub use step::take_step;
