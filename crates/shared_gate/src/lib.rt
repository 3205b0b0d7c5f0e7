//! The gate that threads share: one history of calls, at one gate, and a pass for each caller.
#![tactic(auto)]

mod history;
mod laws;
mod shared_gate;
mod stored;

pub use history::{Entry, Knows};
pub use laws::history_keeps_apart;
pub use shared_gate::{Pass, SharedGate};
pub use stored::Stored;
