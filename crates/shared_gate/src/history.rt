//! The history of the calls, and what a pass knows of it. No value of these types is made.
use pool_base::{GateAnswer, GateCall};
use snapshot_gate::GateState;
use std::collections::LinkedList;

/// One call with its answer, and the pass that made it.
pub struct Entry {
    pub by: u64,
    pub call: GateCall,
    pub answer: GateAnswer,
}

/// The beginning of the history that a pass has seen, and its own calls in it.
pub struct Knows {
    pub fresh: bool,
    pub admitted: bool,
    pub first: GateState,
    pub seen: LinkedList<Entry>,
    pub told: LinkedList<Entry>,
    pub mine: LinkedList<Entry>,
}
