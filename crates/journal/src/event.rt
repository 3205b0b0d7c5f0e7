//! What takes place in a play.

use backend_trait::{Answer, Request};
use pool_base::{BackendId, GateAnswer, GateCall, SessionId};
use session_machine::{Cause, Status};
use session_orders::{Order, Outcome};

/// An event. What it speaks of stays with the player, which hands it on behind the line.
#[derive(Clone, Copy)]
pub enum Event<'a> {
    /// A session takes an order.
    Order {
        s: SessionId,
        order: &'a Order,
    },
    /// The gate answers a call. A call that is held and tried again is no event.
    Gate {
        s: SessionId,
        call: GateCall,
        answer: GateAnswer,
    },
    /// A session posts a request to a backend.
    Post {
        s: SessionId,
        b: BackendId,
        request: &'a Request,
    },
    /// A backend acts on the request of a session.
    Act {
        s: SessionId,
        b: BackendId,
        answer: &'a Answer,
    },
    /// The answer reaches the session.
    Take {
        s: SessionId,
        b: BackendId,
        answer: &'a Answer,
    },
    /// A backend is lost.
    Lost {
        b: BackendId,
    },
    /// A session sees that a backend is lost: the backend's faults before and after.
    Fault {
        s: SessionId,
        b: BackendId,
        before: u64,
        after: u64,
    },
    /// A session asks the gate to detach a backend.
    Detach {
        s: SessionId,
        b: BackendId,
        cause: &'a Cause,
    },
    /// A recovery puts a blank backend in that one's place.
    Swap {
        s: SessionId,
        b: BackendId,
    },
    /// A session replies to its client.
    Reply {
        s: SessionId,
        status: Status,
        outcome: &'a Outcome,
    },
    /// A session ends.
    End {
        s: SessionId,
    },
}
