//! What a session may ask of a store now.
ghost use Rattle.std.specs.Prelude.{◌≡◌, ◌↔◌, IsTrue, None};
ghost use Rattle.backend_trait.specs.Store.{MayPost};
ghost use Rattle.outcomes.specs.Next.{next_of};
ghost use Rattle.plain_store.specs.Meaning.{store_of};
ghost use Rattle.plain_store.specs.Deciding.{is_absent, has_its_lock, MayRunAt, MaySetAt, Admits, is_idle};

use crate::answering::is_live;
use crate::crossing::locks_table;
use crate::data::{Database, Phase};
use backend_trait::{Catalogue, Checked, Request, is_runnable};
use classifier::lock_of;
use outcomes::NextNumbers;
use pool_base::SessionId;

fn is_absent(phase: &Phase) -> bool
    ensures { result ≡ is_absent phase.now }
{
    match phase {
        Phase::Absent => true,
        Phase::Alive(_) | Phase::Dead => false,
    }
}

/// Whether a session has the lock of a table, where there is one.
fn has_its_lock(phase: &Phase, table: Option<u8>) -> bool
    ensures { result ≡ has_its_lock phase.now table }
{
    match table {
        None => true,
        Some(table) => locks_table(phase, table),
    }
}

/// Whether a session's transaction may run a statement.
fn may_run(catalogue: &Catalogue, phase: &Phase, statement: &Checked) -> bool
    ensures { IsTrue result ↔ MayRunAt catalogue.now phase.now statement.now }
{
    is_live(phase) && has_its_lock(phase, lock_of(statement)) && is_runnable(catalogue, statement)
}

/// Whether a session may set the next number of a table, which is that now: the table has one, and
/// the session the table's lock.
fn may_set(old: Option<i64>, phase: &Phase, table: u8, next: i64) -> bool
    ensures { IsTrue result ↔ MaySetAt old phase.now table next }
{
    old.is_some() && locks_table(phase, table) && next >= 1
}

/// Whether a session whose transaction stands so may make the request.
fn admits(catalogue: &Catalogue, numbers: &NextNumbers, phase: &Phase, request: &Request) -> bool
    ensures { IsTrue result ↔ Admits (next_of numbers.now) catalogue.now phase.now request.now }
{
    match request {
        Request::TakeSnapshot => is_absent(phase),
        Request::Run(statement) => may_run(catalogue, phase, statement),
        Request::Lock(_) | Request::Commit => is_live(phase),
        Request::Rollback => true,
        Request::ReadSerial(table) => numbers.at(*table).is_some(),
        Request::SetSerial(table, next) => may_set(numbers.at(*table), phase, *table, *next),
    }
}

fn is_idle(waits: &Option<Request>) -> bool
    ensures { result ≡ is_idle waits.now }
{
    match waits {
        Some(_) => false,
        None => true,
    }
}

/// Whether no request of the session waits.
fn is_at_rest(store: &Database, s: SessionId) -> bool
    ensures { IsTrue result ↔ ((store_of store.now).pending s.number ≡ None) }
{
    let waits = &store.requests[s.number as usize];
    is_idle(waits)
}

/// Whether a session whose transaction stands so may post the request, whatever waits.
pub fn may_ask(store: &Database, s: SessionId, request: &Request) -> bool
    ensures { IsTrue result ↔ MayPost (store_of store.now) s.number request.now }
{
    let phase = &store.phases[s.number as usize];
    admits(&store.catalogue, &store.numbers, phase, request)
}

/// Whether the session may post the request now.
pub fn may_post(store: &Database, s: SessionId, request: &Request) -> bool
    ensures { IsTrue result ↔ (((store_of store.now).pending s.number ≡ None)
        × MayPost (store_of store.now) s.number request.now) }
{
    is_at_rest(store, s) && may_ask(store, s, request)
}
