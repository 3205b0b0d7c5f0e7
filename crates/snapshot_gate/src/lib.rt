//! The gate through which every session passes: snapshots and commits exclude each other there, and
//! backends leave and join the attached ones there.
#![tactic(auto)]

mod gate;
mod laws;
mod state;
#[cfg(test)]
mod tests;

pub use gate::Gate;
pub use laws::never_together;
pub use pool_base::{GateAnswer, GateCall, View};
pub use state::GateState;
