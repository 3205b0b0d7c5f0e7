//! What is due of a session, and what takes place at it.

use crate::status::Status;
use backend_trait::{Answer, Request};
use pool_base::{BackendId, GateAnswer, GateCall};
use session_orders::{Order, Outcome};

/// Why a backend is detached.
#[derive(Drop)]
pub enum Cause {
    /// It was lost: its count of faults before and after the call that shows it.
    Fault { before: u64, after: u64 },
    /// Its own answer is another than the kept one.
    Differs { kept: Answer, own: Answer },
}

/// What is due.
#[derive(Drop)]
pub enum Action {
    /// Nothing: an order may come.
    Rest,
    Gate(GateCall),
    Detach { b: BackendId, cause: Cause },
    Post(BackendId, Request),
    WaitFor(BackendId),
    Reply { outcome: Outcome, status: Status },
    /// The session ends.
    End,
}

/// What takes place at a session.
#[derive(Drop)]
pub enum SessionEvent {
    Ordered(Order),
    /// The gate's answer to a call. A call that is held and tried again is no event.
    Called {
        call: GateCall,
        answer: GateAnswer,
    },
    Posted {
        b: BackendId,
        request: Request,
    },
    /// An answer reaches the session.
    Taken {
        b: BackendId,
        answer: Answer,
    },
    /// The backend that it waits for is lost: the counts of its faults before and after.
    Faulted {
        b: BackendId,
        before: u64,
        after: u64,
    },
    Detached {
        b: BackendId,
        cause: Cause,
        answer: GateAnswer,
    },
    /// A blank backend stands in that one's place. A recovery does this, never a session.
    Swapped {
        b: BackendId,
    },
    Replied {
        outcome: Outcome,
        status: Status,
    },
    Ended,
}
