//! Bytes in memory that are read from the front.
ghost use Rattle.std.specs.Prelude.{◌≡◌, ◌<◌, Some, length};
ghost use Rattle.pool_base.specs.Outside.{Gave, GaveSurely};

use crate::copy::copy_front;
use crate::list::List;
use crate::outside::Got;
use std::marker::Model;

/// Bytes of which a front was read. Contracts see those that are left.
#[derive(Drop)]
pub(crate) struct Remaining {
    bytes: List<u8>,
    place: usize,
}

impl Model for Remaining {
    ghost use Rattle.std.specs.Prelude.{List, ℕ, drop, length, ◌≤◌};

    ghost Value = { List ℕ };

    ghost view = { λ r. drop r.place r.bytes };

    ghost invariant = { λ r. r.place ≤ length r.bytes };
}

impl Remaining {
    pub(crate) fn new(bytes: List<u8>) -> Remaining
        ensures { result ≡ bytes }
    {
        Remaining { bytes, place: 0 }
    }

    /// Reads the next bytes into the piece.
    pub(crate) fn read(&mut self, into: &mut [u8]) -> Got
        requires { 0 < length into.old }
        ensures len { length into.new ≡ length into.old }
        ensures gives { Gave result into.new (Some self.old) (Some self.new) }
        ensures sure { GaveSurely result }
    {
        let rest = self.bytes.as_slice().split_at(self.place).1;
        if rest.is_empty() {
            return Got::End;
        }
        let count = copy_front(rest, into);
        self.place += count;
        Got::Bytes(count)
    }
}
