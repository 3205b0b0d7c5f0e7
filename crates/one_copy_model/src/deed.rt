//! What takes place at the single store.
use backend_trait::{Answer, Request};
use pool_base::Code;

/// What a session does at the single store.
#[derive(PartialEq, Eq, Drop)]
pub enum Deed {
    /// It asks for something.
    Asks(Request),
    /// It gets an answer to what it has asked for.
    Gets(Answer),
    /// Its transaction dies: it is refused with that code, or is rolled back.
    Falls(Option<Code>),
}

/// One step of the single run.
///
/// Units: `session` is the session's number, 1 to 64.
#[derive(PartialEq, Eq, Drop)]
pub struct Entry {
    pub session: u8,
    pub deed: Deed,
}
