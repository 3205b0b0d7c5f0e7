//! What has come of a client up to its start message. It is held back from the session until it is
//! whole, so that what becomes of the client is decided before its session begins.
//!
//! ```text
//! held --a request for encryption--> that goes on, the rest is held
//! held --a start message, or none--> all goes on
//! ```
ghost use Rattle.std.specs.Prelude.{◌≡◌, ◌≤◌, length};

use crate::first::{First, first_of};
use pg_messages::Pair;
use pool_base::{List, NoMemory};
use std::alloc::Global;

/// What has come: its front has gone on, and what stands behind that and before `goes` may go on.
#[derive(Drop)]
pub struct Threshold {
    held: List<u8>,
    given: usize,
    goes: usize,
    is_open: bool,
    ghost within: { goes ≤ length held },
    ghost front: { given ≤ goes },
}

impl Threshold {
    /// Nothing has come.
    pub fn new(alloc: Global) -> Threshold {
        Threshold {
            held: List::new(alloc),
            given: 0,
            goes: 0,
            is_open: false,
        }
    }

    /// Whether all has gone on, and nothing that comes is held.
    pub fn is_passed(&self) -> bool {
        self.is_open && self.given == self.held.len()
    }

    /// Whether nothing that comes is held.
    pub fn is_open(&self) -> bool {
        self.is_open
    }

    /// Whether something goes on, or all that comes does.
    pub fn is_ready(&self) -> bool {
        self.is_open || self.given < self.goes
    }

    /// All goes on.
    pub fn open(&mut self) {
        self.is_open = true;
        self.goes = self.held.len();
    }

    /// More has come.
    pub fn take(&mut self, piece: &[u8]) -> Result<(), NoMemory> {
        self.held.extend_from_slice(piece)
    }

    /// Puts what goes on into the front of a piece: so many bytes.
    pub fn hand(&mut self, into: &mut [u8]) -> usize
        ensures len { length into.new ≡ length into.old }
        ensures few { result ≤ length into.old }
    {
        let count = (self.goes - self.given).min(into.len());
        let from = &self.held.as_slice()[self.given..self.given + count];
        into[..count].copy_from_slice(from);
        self.given += count;
        count
    }

    /// Looks at what is held: the options of a start message, where that is whole. What becomes of
    /// it is for the caller to say.
    pub fn look(&mut self, alloc: Global) -> Result<Option<List<Pair>>, NoMemory> {
        match first_of(alloc, &self.held.as_slice()[self.given..])? {
            First::More => Ok(None),
            First::Asks(length) => {
                self.goes = self.given + length.min(self.held.len() - self.given);
                Ok(None)
            }
            First::Other => {
                self.open();
                Ok(None)
            }
            First::Starts(options) => Ok(Some(options)),
        }
    }
}
