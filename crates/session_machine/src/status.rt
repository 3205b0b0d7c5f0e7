//! What a client sees of its session.
ghost use Rattle.std.specs.Prelude.{◌≡◌};
ghost use Rattle.session_machine.specs.Rules.{status_byte, status_failed};

/// The status of a session at a reply.
///
/// ```text
///            Begin                  a refusal
/// Idle (I) ---------> InBlock (T) -----------> Failed (E)
///    ^                   |                        |
///    +-- Commit, Rollback +---- Commit, Rollback -+
/// ```
#[derive(Clone, Copy, PartialEq, Eq)]
pub enum Status {
    /// Outside a block.
    Idle,
    InBlock,
    /// In a block that waits for its end.
    Failed,
}

impl Status {
    /// The status behind a refusal: it fails a block.
    pub fn failed(self) -> Status
        ensures { result ≡ status_failed self }
    {
        match self {
            Status::Idle => Status::Idle,
            Status::InBlock | Status::Failed => Status::Failed,
        }
    }

    /// The letter by which a client is told of it: `I`, `T` or `E`.
    ///
    /// Source: PostgreSQL, Frontend/Backend Protocol, "Message Formats", ReadyForQuery.
    pub fn byte(self) -> u8
        ensures { result ≡ status_byte self }
    {
        match self {
            Status::Idle => b'I',
            Status::InBlock => b'T',
            Status::Failed => b'E',
        }
    }
}
