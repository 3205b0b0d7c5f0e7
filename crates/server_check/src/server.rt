//! A server that was asked.

use crate::answer::Answer;
use pool_base::{BackendId, List, Text};

/// Which server a number is.
#[derive(Drop)]
pub struct Identity {
    pub number: BackendId,
    /// The lowest number that is this server and this database, as the server says it.
    pub place: Text,
}

/// A server that was asked.
#[derive(Drop)]
pub struct Server {
    pub number: BackendId,
    /// Its answers, in the order of the questions.
    pub answers: List<Answer>,
}
