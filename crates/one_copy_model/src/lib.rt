//! The replicated world: the gate, a machine for each session, a store for each backend; what takes
//! place in it, and where. The definitions of the theorem that many backends are one, and its laws.
//!
//! The facts of the invariant by the parts that they read, and the frames: what a step leaves as it
//! is.
//!
//! What the deeds of one session leave in the single run.
#![tactic(auto)]

mod deed;
mod event;
mod facts;
mod laws;
mod runs;

pub use deed::{Deed, Entry};
pub use event::Event;
pub use facts::facts_are_the_invariant;
pub use laws::{
    acknowledged_follow, agreement_follows, loss_keeps, marks_are_crossings, never_together,
    one_copy_follows, one_first_failure, starts_right,
};
pub use runs::runs_go_on;
