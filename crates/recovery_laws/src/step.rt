//! What takes place in the replicated world with recoveries.

use backend_trait::Answer;
use one_copy_model::Event;
use pool_base::{BackendId, SessionId};
use session_machine::SessionEvent;

/// What takes place.
#[derive(Drop)]
pub enum Step {
    /// In the world of the sessions.
    Serve(Event),
    /// At the recovery that a session has ordered.
    Recover {
        s: SessionId,
        event: SessionEvent,
    },
    /// A backend answers what a recovery asks.
    Answer {
        s: SessionId,
        b: BackendId,
        answer: Answer,
    },
}
