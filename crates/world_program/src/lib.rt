//! The plain program of the replicated world: which event may come, where it leads, and the world
//! behind a list of events.
#![tactic(auto)]

mod data;
mod fault;
mod first;
mod gates;
mod may;
mod moving;
mod replaying;
mod same;
mod session;
mod takes;

pub use data::{Replica, Replicas};
pub use fault::ReplayFault;
pub use gates::gate_answer;
pub use may::may_happen;
pub use moving::step;
pub use replaying::{Start, replay};
