//! The bytes that have come and were not read yet.
ghost use Rattle.std.specs.Prelude.{◌≡◌, ◌≤◌, ◌++◌, [], drop, length, OnOk, OnErr};

use pool_base::{List, NoMemory};
use std::alloc::Global;
use std::marker::Model;
use std::mem;

/// The bytes that have come and were not read yet, which contracts see as the list of them.
#[derive(Drop)]
pub struct Inbox {
    bytes: List<u8>,
    from: usize,
    ghost within: { from ≤ length bytes },
}

impl Model for Inbox {
    ghost use Rattle.std.specs.Prelude.{List as Sequence, ℕ, drop};

    ghost Value = { Sequence ℕ };

    ghost view = { λ a. drop a.from a.bytes };
}

impl Inbox {
    /// Nothing has come. It takes no memory.
    pub fn new(alloc: Global) -> Inbox
        ensures { result ≡ [] }
    {
        Inbox {
            bytes: List::new(alloc),
            from: 0,
        }
    }

    pub fn as_slice(&self) -> &[u8]
        ensures { result.now ≡ self.now }
    {
        &self.bytes.as_slice()[self.from..]
    }

    /// Lets go of the bytes that were read.
    fn settle(&mut self) -> Result<(), NoMemory>
        ensures { self.new ≡ self.old }
    {
        if self.from == self.bytes.len() {
            self.bytes.truncate(0);
            self.from = 0;
        } else if self.from > 0 {
            let rest = List::from_slice(self.bytes.allocator(), self.as_slice())?;
            drop(mem::replace(
                self,
                Inbox {
                    bytes: rest,
                    from: 0,
                },
            ));
        }
        Ok(())
    }

    /// Makes room for that many more bytes.
    pub fn reserve(&mut self, count: usize) -> Result<(), NoMemory>
        ensures { self.new ≡ self.old }
    {
        self.settle()?;
        self.bytes.reserve(count)
    }

    /// Puts bytes that have come behind the others.
    pub fn take(&mut self, piece: &[u8]) -> Result<(), NoMemory>
        ensures ok { OnOk result (self.new ≡ self.old ++ piece.now) }
        ensures err { OnErr result (self.new ≡ self.old) }
    {
        self.settle()?;
        self.bytes.extend_from_slice(piece)
    }

    /// Passes over bytes that were read.
    pub fn pass(&mut self, count: usize)
        requires { count ≤ length self.old }
        ensures { self.new ≡ drop count self.old }
    {
        let held = self.bytes.len();
        self.from = held - (held - self.from - count);
    }
}
