//! What a session may ask of the store now.
ghost use Rattle.std.specs.Prelude.{◌≡◌, ◌↔◌, IsTrue};
ghost use Rattle.classifier.specs.Classes.{lock_of};
ghost use Rattle.backend_trait.specs.Store.{IsLocked};
ghost use Rattle.outcomes.specs.Next.{next_of};
ghost use Rattle.model_store.specs.Phases.{held_of, held_by_phase, is_open};
ghost use Rattle.model_store.specs.Acting.{admits, is_absent, MayRunAt, MaySetAt};

use crate::phase::{Phase, Work};
use crate::store::MemoryStore;
use backend_trait::{Catalogue, Checked, Request, is_runnable};
use classifier::lock_of;
use outcomes::NextNumbers;
use pool_base::SessionId;

/// Whether a live transaction has the lock that a statement needs.
fn has_lock_for(work: &Work, statement: &Checked) -> bool
    ensures { IsTrue result ↔ IsLocked (held_of work.now) (lock_of statement.now.body) }
{
    match lock_of(statement) {
        None => true,
        Some(table) => work.locks[usize::from(table)],
    }
}

/// Whether a session's transaction may run a statement: it is live, and it has the lock that the
/// statement needs.
fn may_run(catalogue: &Catalogue, phase: &Phase, statement: &Checked) -> bool
    ensures { IsTrue result ↔ MayRunAt catalogue.now phase.now statement.now }
{
    match phase {
        Phase::Open(work) => has_lock_for(work, statement) && is_runnable(catalogue, statement),
        Phase::Absent | Phase::Dead => false,
    }
}

fn is_absent(phase: &Phase) -> bool
    ensures { result ≡ is_absent phase.now }
{
    matches!(phase, Phase::Absent)
}

fn is_open(phase: &Phase) -> bool
    ensures { result ≡ is_open phase.now }
{
    matches!(phase, Phase::Open(_))
}

/// Whether a session has the lock of a table.
fn has_lock(phase: &Phase, table: u8) -> bool
    ensures { result ≡ (held_by_phase phase.now).tables table }
{
    match phase {
        Phase::Open(work) => work.locks[usize::from(table)],
        Phase::Absent | Phase::Dead => false,
    }
}

/// Whether a session may set the next number of a table, which is that now: the table has one, and
/// the session the table's lock.
fn may_set(old: Option<i64>, phase: &Phase, table: u8, next: i64) -> bool
    ensures { IsTrue result ↔ MaySetAt old (held_by_phase phase.now) table next }
{
    old.is_some() && has_lock(phase, table) && next >= 1
}

/// Whether a session whose transaction stands so may make the request.
fn admits(catalogue: &Catalogue, numbers: &NextNumbers, phase: &Phase, request: &Request) -> bool
    ensures { IsTrue result ↔ admits (next_of numbers.now) catalogue.now phase.now request.now }
{
    match request {
        Request::TakeSnapshot => is_absent(phase),
        Request::Run(statement) => may_run(catalogue, phase, statement),
        Request::Lock(_) => is_open(phase),
        Request::Commit => is_open(phase),
        Request::Rollback => true,
        Request::ReadSerial(table) => numbers.at(*table).is_some(),
        Request::SetSerial(table, next) => may_set(numbers.at(*table), phase, *table, *next),
    }
}

impl MemoryStore {
    ghost use Rattle.std.specs.Prelude.{IsSome, None};
    ghost use Rattle.backend_trait.specs.Store.{MayPost};
    ghost use Rattle.model_store.specs.Meaning.{meaning};

    /// Whether a request of the session is pending.
    pub fn is_pending(&self, s: SessionId) -> bool
        ensures { IsTrue result ↔ IsSome ((meaning self.now).pending s.number) }
    {
        self.seats[s.number as usize].waiting.is_some()
    }

    /// Whether the session may post the request now.
    pub fn may_post(&self, s: SessionId, request: &Request) -> bool
        ensures { IsTrue result ↔ (((meaning self.now).pending s.number ≡ None)
            × MayPost (meaning self.now) s.number request.now) }
    {
        let seat = &self.seats[s.number as usize];
        if seat.waiting.is_some() {
            return false;
        }
        admits(&self.catalogue, &self.numbers, &seat.phase, request)
    }
}
