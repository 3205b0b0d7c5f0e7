//! Objects in memory that fail where they are told to.
ghost use Rattle.std.specs.Prelude.{◌≡◌, ◌++◌, ◌<◌, ◌≤◌, ◌||◌, Some, [], true, false, length, is_none};
ghost use Rattle.pool_base.specs.Outside.{FaultyRead, FaultyWrite, Gave, GaveAt, Took, told_of, content_at, is_end, is_failed, TakesAll};
ghost use Rattle.pool_base.specs.Planned.{IsPlan, is_planned};

use crate::copy::{content_of, read_at};
use crate::fault_plan::FaultPlan;
use crate::list::List;
use crate::outside::{Files, Got, Put, Sink, Source};
use crate::remaining::Remaining;
use crate::text::Text;
use std::alloc::Global;

/// A source of some bytes.
#[derive(Drop)]
pub struct MemorySource {
    left: Remaining,
    ended: bool,
    plan: FaultPlan,
}

impl MemorySource {
    /// `fails` are the numbers of the calls that are to fail, counted from 1.
    pub fn new(bytes: List<u8>, fails: List<u64>) -> MemorySource
        ensures left { ⟦<MemorySource as Source>⟧.left result ≡ Some bytes }
        ensures ended { ⟦<MemorySource as Source>⟧.ended result ≡ false }
        ensures plan { IsPlan result.plan.fails result.plan.calls result.plan.faults fails }
    {
        MemorySource {
            left: Remaining::new(bytes),
            ended: false,
            plan: FaultPlan::new(fails),
        }
    }
}

impl Source for MemorySource {
    ghost left = { λ s. Some s.left };

    ghost ended = { λ s. s.ended };

    ghost fault_count = { λ s. s.plan.faults };

    #[tactic(auto, using(crate::proofs::Reading::surely))]
    fn read(&mut self, into: &mut [u8]) -> Got
        requires { 0 < length into.old }
        ensures len { length into.new ≡ length into.old }
        ensures gives { Gave result into.new (Some self.old.left) (Some self.new.left) }
        ensures ended { self.new.ended ≡ (self.old.ended || is_end result) }
        ensures failed { FaultyRead result self.old.plan.faults self.new.plan.faults }
        ensures later { self.old.plan.faults ≤ self.new.plan.faults }
        ensures planned { is_failed result ≡ is_planned self.old.plan.fails self.old.plan.calls }
    {
        if self.plan.next_fails() {
            return Got::Failed;
        }
        let got = self.left.read(into);
        self.ended = self.ended || got == Got::End;
        got
    }

    fn faults(&self) -> u64 {
        self.plan.faults
    }
}

/// A sink that keeps what it takes. Where memory is refused, it fails.
#[derive(Drop)]
pub struct MemorySink {
    bytes: List<u8>,
    plan: FaultPlan,
}

impl MemorySink {
    /// `fails` are the numbers of the calls that are to fail, counted from 1.
    pub fn new(alloc: Global, fails: List<u64>) -> MemorySink
        ensures taken { ⟦<MemorySink as Sink>⟧.taken result ≡ Some [] }
        ensures plan { IsPlan result.plan.fails result.plan.calls result.plan.faults fails }
    {
        MemorySink {
            bytes: List::new(alloc),
            plan: FaultPlan::new(fails),
        }
    }

    /// What it has taken.
    pub fn taken_bytes(&self) -> &[u8]
        ensures { ⟦<MemorySink as Sink>⟧.taken self.now ≡ Some result.now }
    {
        self.bytes.as_slice()
    }
}

impl Sink for MemorySink {
    ghost taken = { λ s. Some s.bytes };

    ghost fault_count = { λ s. s.plan.faults };

    fn write(&mut self, piece: &[u8]) -> Put
        requires { 0 < length piece.now }
        ensures takes { Took result piece.now (Some self.old.bytes) (Some self.new.bytes) }
        ensures failed { FaultyWrite result self.old.plan.faults self.new.plan.faults }
        ensures later { self.old.plan.faults ≤ self.new.plan.faults }
        ensures planned { is_planned self.old.plan.fails self.old.plan.calls ≡ true →
            result ≡ Put.Failed }
        ensures all { TakesAll result piece.now }
    {
        if self.plan.next_fails() {
            return Put::Failed;
        }
        if self.bytes.extend_from_slice(piece).is_err() {
            self.plan.fault();
            return Put::Failed;
        }
        Put::Taken(piece.len())
    }

    fn faults(&self) -> u64 {
        self.plan.faults
    }
}

/// Files in memory.
#[derive(Drop)]
pub struct MemoryFiles {
    names: List<Text>,
    contents: List<List<u8>>,
    plan: FaultPlan,
}

impl MemoryFiles {
    /// The first name goes with the first content, and so on. Of two contents with one name the
    /// first counts. `fails` are the numbers of the calls that are to fail, counted from 1.
    pub fn new(names: List<Text>, contents: List<List<u8>>, fails: List<u64>) -> MemoryFiles
        ensures contents { ⟦<MemoryFiles as Files>⟧.contents result ≡ told_of names contents }
        ensures plan { IsPlan result.plan.fails result.plan.calls result.plan.faults fails }
    {
        MemoryFiles {
            names,
            contents,
            plan: FaultPlan::new(fails),
        }
    }
}

impl Files for MemoryFiles {
    ghost contents = { λ f. told_of f.names f.contents };

    ghost fault_count = { λ f. f.plan.faults };

    #[tactic(auto, using(crate::proofs::Reading::surely))]
    fn read(&mut self, name: &str, place: u64, into: &mut [u8]) -> Got
        requires { 0 < length into.old }
        ensures len { length into.new ≡ length into.old }
        ensures gives { GaveAt result place into.new
            (told_of self.old.names self.old.contents name.now) }
        ensures kept { told_of self.new.names self.new.contents ≡
            told_of self.old.names self.old.contents }
        ensures failed { FaultyRead result self.old.plan.faults self.new.plan.faults }
        ensures later { self.old.plan.faults ≤ self.new.plan.faults }
        ensures planned { is_failed result ≡ (is_planned self.old.plan.fails self.old.plan.calls ||
            is_none (content_at self.old.names self.old.contents name.now)) }
    {
        if self.plan.next_fails() {
            return Got::Failed;
        }
        match content_of(self.names.as_slice(), self.contents.as_slice(), name) {
            Some(content) => read_at(content, place, into),
            None => {
                self.plan.fault();
                Got::Failed
            }
        }
    }

    fn faults(&self) -> u64 {
        self.plan.faults
    }
}
