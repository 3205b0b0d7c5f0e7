//! One request of a session, and whether it is granted.
use backend_trait::{Answer, Backend, Polled, Posted, Request};
use model_store::MemoryStore;
use pool_base::SessionId;

/// Whether the backend has acted, and not refused.
fn is_grant(polled: &Polled) -> bool {
    match polled {
        Polled::Answered(Answer::Refused(_)) => false,
        Polled::Answered(_) => true,
        Polled::NotYet | Polled::Lost | Polled::NoMemory => false,
    }
}

/// The session asks, and looks once: whether its request is granted.
pub fn is_granted(store: &mut MemoryStore, s: SessionId, request: Request) -> bool {
    if !store.may_post(s, &request) {
        drop(request);
        return false;
    }
    match store.post(s, request) {
        Posted::NoMemory(request) => {
            drop(request);
            false
        }
        Posted::Accepted => store.is_pending(s) && is_grant(&store.poll(s)),
    }
}
