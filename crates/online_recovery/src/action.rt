//! What is due of a recovery. What takes place at it are the events of a session.

use backend_trait::Request;
use pool_base::{BackendId, GateCall};
use session_machine::{Cause, Status};
use session_orders::Outcome;

/// What is due.
#[derive(Drop)]
pub enum RecoveryAction {
    /// Nothing: an order may come.
    Rest,
    Gate(GateCall),
    /// A blank backend is to stand in that one's place.
    Swap(BackendId),
    Detach { b: BackendId, cause: Cause },
    Post(BackendId, Request),
    WaitFor(BackendId),
    Reply { outcome: Outcome, status: Status },
    /// The session ends.
    End,
}
