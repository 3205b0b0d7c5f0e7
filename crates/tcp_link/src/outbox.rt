//! Bytes on their way to a server.
ghost use Rattle.std.specs.Prelude.{◌≤◌, length};
ghost use Rattle.tcp_link.specs.Wires.{IsEmptied};

use crate::wire::{Sent, Wire};
use pool_base::{List, NoMemory};
use std::alloc::Global;
use std::mem;

/// Bytes that are to be sent, of which some were.
#[derive(Drop)]
pub struct Outbox {
    bytes: List<u8>,
    from: usize,
    ghost within: { from ≤ length bytes },
}

/// What became of the bytes that were to be sent.
#[derive(Clone, Copy, Drop)]
pub enum Emptied {
    /// All were sent.
    All,
    NotYet,
    Failed,
}

impl Outbox {
    /// Nothing is to be sent. It takes no memory.
    pub fn new(alloc: Global) -> Outbox {
        Outbox {
            bytes: List::new(alloc),
            from: 0,
        }
    }

    /// These bytes are to be sent, in place of any others.
    pub fn fill(&mut self, bytes: List<u8>) {
        drop(mem::replace(self, Outbox { bytes, from: 0 }));
    }

    /// These bytes are to be sent behind what is left.
    pub fn add(&mut self, bytes: List<u8>) -> Result<(), NoMemory> {
        if self.from == self.bytes.len() {
            self.fill(bytes);
            return Ok(());
        }
        let added = self.bytes.extend_from_slice(bytes.as_slice());
        drop(bytes);
        added
    }

    /// Sends what is left, as far as the wire takes it.
    pub fn empty<W: Wire>(&mut self, wire: &mut W) -> Emptied
        ensures emptied { IsEmptied result (W.fault_count wire.old) (W.fault_count wire.new) }
        ensures later { W.fault_count wire.old ≤ W.fault_count wire.new }
    {
        'rest: while self.from < self.bytes.len() {
            let rest = &self.bytes.as_slice()[self.from..];
            let size = rest.len();
            match wire.send(rest) {
                Sent::Taken(count) => self.from = self.bytes.len() - (size - count),
                Sent::NotYet => return Emptied::NotYet,
                Sent::Failed => return Emptied::Failed,
            }
        }
        Emptied::All
    }
}
