//! The machine of a recovery, which brings a detached backend in: each call takes what has taken
//! place, and what is due is asked for. Before the gate's quiet is entered no event attaches the
//! target.
#![tactic(auto)]

mod action;
mod ask;
mod call;
mod codes;
mod copies;
mod copying;
mod event;
mod hand;
mod laws;
mod layout;
mod may;
mod recovery;
mod rules;
mod standing;

pub use action::RecoveryAction;
pub use ask::RecoveryAsk;
pub use laws::attaches_under_quiet;
pub use layout::Layout;
pub use recovery::Recovery;
pub use standing::{Due, Ending, GateStanding, Held, Owed, Quiet, Side, Standing, Task};
