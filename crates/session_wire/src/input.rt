//! The bytes that a client has sent.
ghost use Rattle.std.specs.Prelude.{◌≡◌, ◌≤◌, ◌++◌, [], length, drop, vec_len, vec_capacity, OnOk, OnErr};

use pool_base::NoMemory;
use std::alloc::Global;
use std::marker::Model;

/// Bytes in the order of their coming, of which some at the front are taken. Contracts see the
/// others.
///
/// Each byte is moved once at most for each time that it was fed: the bytes that were taken are let
/// go where they are as many as the others.
#[derive(Drop)]
pub(crate) struct Input {
    bytes: Vec<u8>,
    taken: usize,
}

impl Model for Input {
    ghost use Rattle.std.specs.Prelude.{◌≤◌, ℕ, List as Sequence, drop, length};

    ghost Value = { Sequence ℕ };

    ghost view = { λ a. drop a.taken a.bytes.items };

    ghost invariant = { λ a. a.taken ≤ length a.bytes.items };
}

impl Input {
    /// No bytes. It takes no memory.
    pub(crate) fn new(alloc: Global) -> Input
        ensures { result ≡ [] }
    {
        Input {
            bytes: Vec::new(alloc),
            taken: 0,
        }
    }

    /// The bytes that were not taken.
    pub(crate) fn as_slice(&self) -> &[u8]
        ensures { result.now ≡ self.now }
    {
        &self.bytes[self.taken..]
    }

    /// Puts bytes behind the others.
    pub(crate) fn feed(&mut self, piece: &[u8]) -> Result<(), NoMemory>
        ensures ok { OnOk result (self.new ≡ self.old ++ piece.now) }
        ensures err { OnErr result (self.new ≡ self.old) }
    {
        if self.taken >= self.bytes.len() - self.taken {
            self.forget();
        }
        self.bytes.extend_from_slice(piece)?;
        Ok(())
    }

    /// Lets the bytes go that were taken.
    fn forget(&mut self)
        ensures { self.new ≡ self.old }
    {
        drop_front(&mut self.bytes, self.taken);
        self.taken = 0;
    }

    /// Takes bytes from the front.
    pub(crate) fn take(&mut self, count: usize)
        requires { count ≤ length self.old }
        ensures { self.new ≡ drop count self.old }
    {
        self.taken += count;
    }
}

/// Drops bytes from the front.
pub(crate) fn drop_front(bytes: &mut Vec<u8>, count: usize)
    requires { count ≤ length bytes.old.items }
    ensures items { bytes.new.items ≡ drop count bytes.old.items }
    ensures len { vec_len bytes.new ≤ vec_len bytes.old }
    ensures capacity { vec_capacity bytes.new ≡ vec_capacity bytes.old }
{
    bytes.rotate_left(count);
    bytes.truncate(bytes.len() - count);
}
