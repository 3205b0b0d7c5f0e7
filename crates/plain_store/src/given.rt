//! What the statements that wait give.
ghost use Rattle.std.specs.Prelude.{◌≡◌, ◌<◌, Some, IfOk, option_map};
ghost use Rattle.backend_trait.specs.Typed.{AreAllStored};
ghost use Rattle.backend_trait.specs.Runnable.{IsRunnable};
ghost use Rattle.backend_trait.specs.Store.{view_of};
ghost use Rattle.backend_trait.specs.Acts.{given_of};
ghost use Rattle.outcomes.specs.Given.{given_in};
ghost use Rattle.plain_store.specs.Phases.{live_of, transaction_of};
ghost use Rattle.plain_store.specs.Meaning.{store_of};
ghost use Rattle.plain_store.specs.Kept.{IsKept, IsStoredIn};
ghost use Rattle.plain_store.specs.Giving.{given_run, given_by, given_to, AreGiven};

use crate::data::{Database, Phase, Work};
use backend_trait::{Checked, Request};
use outcomes::{Outcome, outcome_of, table_in};
use pool_base::NoMemory;

/// What a statement gives a live transaction.
fn given_live(store: &Database, work: &Work, statement: &Checked) -> Result<Outcome, NoMemory>
    requires runnable { IsRunnable store.now.catalogue statement.now }
    requires stored { AreAllStored store.now.catalogue (view_of (live_of work.now)) }
    ensures { IfOk result (λ outcome. given_in outcome
        ≡ given_of (store_of store.now) statement.now (live_of work.now)) }
{
    let sets = work.base.as_slice();
    let own = work.own.changes.as_slice();
    let next = store.numbers.next_for(table_in(statement));
    outcome_of(store.alloc, &store.catalogue, sets, own, next, statement)
}

/// What a statement gives a transaction, where that is live.
fn given_run(
    store: &Database,
    phase: &Phase,
    statement: &Checked,
) -> Result<Option<Outcome>, NoMemory>
    requires runnable { IsRunnable store.now.catalogue statement.now }
    requires stored { IsStoredIn store.now.catalogue (transaction_of phase.now) }
    ensures { IfOk result (λ given. option_map given_in given
        ≡ given_run (store_of store.now) statement.now (transaction_of phase.now)) }
{
    match phase {
        Phase::Alive(work) => Ok(Some(given_live(store, work, statement)?)),
        Phase::Absent | Phase::Dead => Ok(None),
    }
}

/// What a request gives a transaction, where it is a statement and that is live.
fn given_asked(
    store: &Database,
    phase: &Phase,
    request: &Request,
) -> Result<Option<Outcome>, NoMemory>
    requires kept { IsKept store.now.catalogue (Some request.now) }
    requires stored { IsStoredIn store.now.catalogue (transaction_of phase.now) }
    ensures { IfOk result (λ given. option_map given_in given
        ≡ given_by (store_of store.now) (transaction_of phase.now) (Some request.now)) }
{
    match request {
        Request::Run(statement) => given_run(store, phase, statement),
        Request::TakeSnapshot
        | Request::Lock(_)
        | Request::Commit
        | Request::Rollback
        | Request::ReadSerial(_)
        | Request::SetSerial(_, _) => Ok(None),
    }
}

/// What a request gives a transaction, where one waits.
fn given_by(
    store: &Database,
    phase: &Phase,
    waits: &Option<Request>,
) -> Result<Option<Outcome>, NoMemory>
    requires kept { IsKept store.now.catalogue waits.now }
    requires stored { IsStoredIn store.now.catalogue (transaction_of phase.now) }
    ensures { IfOk result (λ given. option_map given_in given
        ≡ given_by (store_of store.now) (transaction_of phase.now) waits.now) }
{
    match waits {
        Some(request) => given_asked(store, phase, request),
        None => Ok(None),
    }
}

/// What the statement of a session gives its live transaction. None: no such statement waits.
pub(crate) fn given_at(store: &Database, s: usize) -> Result<Option<Outcome>, NoMemory>
    requires { s < 65 }
    ensures { IfOk result (λ given. option_map given_in given ≡ given_to store.now s) }
{
    let phase = &store.phases[s];
    let waits = &store.requests[s];
    given_by(store, phase, waits)
}

/// The same of each session.
pub(crate) fn all_given(store: &Database) -> Result<Vec<Option<Outcome>>, NoMemory>
    ensures { IfOk result (λ all. AreGiven store.now all.items) }
{
    let mut all: Vec<Option<Outcome>> = Vec::new(store.alloc);
    for s in 0..65_usize {
        all.push(given_at(store, s)?)?;
    }
    Ok(all)
}
