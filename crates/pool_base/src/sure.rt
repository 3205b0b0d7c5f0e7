//! Objects in memory that never fail.
ghost use Rattle.std.specs.Prelude.{◌≡◌, ◌++◌, ◌<◌, ◌≤◌, Some, [], true, false, drop, length, IsTrue};
ghost use Rattle.pool_base.specs.Outside.{told_or_empty};

use crate::copy::{content_of, read_at};
use crate::list::List;
use crate::outside::{Files, Got, Put, Sink, Source};
use crate::remaining::Remaining;
use crate::text::Text;
use std::alloc::Global;
use std::sync::Wait;

/// A source of some bytes that never fails.
#[derive(Drop)]
pub struct SureSource {
    left: Remaining,
    ended: bool,
}

impl SureSource {
    pub fn new(bytes: List<u8>) -> SureSource
        ensures left { ⟦<SureSource as Source>⟧.left result ≡ Some bytes }
        ensures ended { ⟦<SureSource as Source>⟧.ended result ≡ false }
    {
        SureSource {
            left: Remaining::new(bytes),
            ended: false,
        }
    }
}

impl Source for SureSource {
    ghost left = { λ s. Some s.left };

    ghost ended = { λ s. s.ended };

    ghost fault_count = { λ _. 0 };

    #[tactic(auto, using(crate::proofs::Reading::surely))]
    fn read(&mut self, into: &mut [u8]) -> Got {
        let got = self.left.read(into);
        self.ended = self.ended || got == Got::End;
        got
    }

    fn faults(&self) -> u64 {
        0
    }
}

/// Puts bytes behind the others. Where memory is refused, it waits and tries again.
fn extend_surely(rt: &impl Wait, bytes: &mut List<u8>, piece: &[u8])
    ensures { bytes.new ≡ bytes.old ++ piece.now }
{
    for _ in rt.forever() {
        if bytes.extend_from_slice(piece).is_ok() {
            return;
        }
    }
    unreachable!()
}

/// A sink that keeps what it takes and never fails. Where memory is refused, it waits and tries
/// again.
#[derive(Drop)]
pub struct SureSink<W: Wait + Drop> {
    bytes: List<u8>,
    rt: W,
}

impl<W: Wait + Drop> SureSink<W> {
    pub fn new(alloc: Global, rt: W) -> SureSink<W>
        ensures { ⟦<SureSink<W> as Sink>⟧.taken result ≡ Some [] }
    {
        SureSink {
            bytes: List::new(alloc),
            rt,
        }
    }

    /// What it has taken.
    pub fn taken_bytes(&self) -> &[u8]
        ensures { ⟦<SureSink<W> as Sink>⟧.taken self.now ≡ Some result.now }
    {
        self.bytes.as_slice()
    }
}

impl<W: Wait + Drop> Sink for SureSink<W> {
    ghost taken = { λ s. Some s.bytes };

    ghost fault_count = { λ _. 0 };

    fn write(&mut self, piece: &[u8]) -> Put {
        extend_surely(&self.rt, &mut self.bytes, piece);
        Put::Taken(piece.len())
    }

    fn faults(&self) -> u64 {
        0
    }
}

/// Files that never fail. A name that is not among theirs is the name of an empty file.
#[derive(Drop)]
pub struct SureFiles {
    names: List<Text>,
    contents: List<List<u8>>,
}

impl SureFiles {
    /// The first name goes with the first content, and so on. Of two contents with one name the
    /// first counts.
    pub fn new(names: List<Text>, contents: List<List<u8>>) -> SureFiles
        ensures { ⟦<SureFiles as Files>⟧.contents result ≡ told_or_empty names contents }
    {
        SureFiles { names, contents }
    }
}

impl Files for SureFiles {
    ghost contents = { λ f. told_or_empty f.names f.contents };

    ghost fault_count = { λ _. 0 };

    #[tactic(auto, using(crate::proofs::Reading::surely))]
    fn read(&mut self, name: &str, place: u64, into: &mut [u8]) -> Got {
        match content_of(self.names.as_slice(), self.contents.as_slice(), name) {
            Some(content) => read_at(content, place, into),
            None => Got::End,
        }
    }

    fn faults(&self) -> u64 {
        0
    }
}
