//! What takes place in the replicated world.
use backend_trait::Answer;
use pool_base::{BackendId, SessionId};
use session_machine::SessionEvent;

/// What takes place.
#[derive(Drop)]
pub enum Event {
    /// At a session.
    Of {
        s: SessionId,
        event: SessionEvent,
    },
    /// A backend answers the session's request.
    Act {
        s: SessionId,
        b: BackendId,
        answer: Answer,
    },
    /// A backend is lost.
    Lost {
        b: BackendId,
    },
}
