//! A session between two messages.
ghost use Rattle.wire_session.specs.Kept.{IsNew};

use crate::portals::Portals;
use crate::statements::Statements;
use std::alloc::Global;

/// A statement that begins or ends a block.
#[derive(Clone, Copy, PartialEq, Eq)]
pub enum Control {
    Begin,
    Commit,
    Rollback,
}

/// What is known of a session.
#[derive(Drop)]
pub struct Session {
    /// `I` outside a block, `T` in one, `E` in a failed one.
    pub status: u8,
    /// Whether statements outside a block have begun a transaction that is not settled yet.
    pub implicit: bool,
    /// Whether messages are dropped up to the next Sync.
    pub skipping: bool,
    pub statements: Statements,
    pub portals: Portals,
}

impl Session {
    /// A session that was let in just now. It takes no memory.
    pub fn new(alloc: Global) -> Session
        ensures { IsNew result }
    {
        Session {
            status: b'I',
            implicit: false,
            skipping: false,
            statements: Statements::new(alloc),
            portals: Portals::new(alloc),
        }
    }

    /// Whether the block has failed.
    pub fn has_failed(&self) -> bool {
        self.status == b'E'
    }
}
