//! Copies of what the program keeps.
ghost use Rattle.std.specs.Prelude.{◌≡◌, IfOk, map};
ghost use Rattle.plain_store.specs.Phases.{changes_in, live_of};

use crate::data::Work;
use backend_trait::Request;
use checked_sql::checked_copied;
use outcomes::{ChangeSet, Spot};
use pool_base::{List, NoMemory};
use sql_eval::Change;
use std::alloc::Global;

fn change_copied(change: &Change) -> Result<Change, NoMemory>
    ensures { IfOk result (λ copy. copy ≡ change.now) }
{
    Ok(Change {
        table: change.table,
        key: change.key.clone()?,
        row: change.row.clone()?,
    })
}

pub(crate) fn set_copied(alloc: Global, set: &ChangeSet) -> Result<ChangeSet, NoMemory>
    ensures { IfOk result (λ copy. copy.changes.items ≡ set.now.changes.items) }
{
    let mut changes: Vec<Change> = Vec::new(alloc);
    for change in &set.changes {
        changes.push(change_copied(change)?)?;
    }
    Ok(ChangeSet { changes })
}

pub(crate) fn sets_copied(alloc: Global, sets: &[ChangeSet]) -> Result<Vec<ChangeSet>, NoMemory>
    ensures { IfOk result (λ copy. map changes_in copy.items ≡ map changes_in sets.now) }
{
    let mut all: Vec<ChangeSet> = Vec::new(alloc);
    for set in sets {
        all.push(set_copied(alloc, set)?)?;
    }
    Ok(all)
}

fn spots_copied(alloc: Global, spots: &[Spot]) -> Result<Vec<Spot>, NoMemory>
    ensures { IfOk result (λ copy. copy.items ≡ spots.now) }
{
    let mut all: Vec<Spot> = Vec::new(alloc);
    for spot in spots {
        all.push(Spot {
            table: spot.table,
            key: spot.key.clone()?,
        })?;
    }
    Ok(all)
}

pub(crate) fn work_copied(alloc: Global, work: &Work) -> Result<Work, NoMemory>
    ensures { IfOk result (λ copy. live_of copy ≡ live_of work.now) }
{
    let old_base = work.base.as_slice();
    let old_held = work.held.as_slice();
    let old_tables = work.tables.as_slice();
    let old_stale = work.stale.as_slice();
    let base = sets_copied(alloc, old_base)?;
    let own = set_copied(alloc, &work.own)?;
    let held = spots_copied(alloc, old_held)?;
    let tables = List::from_slice(alloc, old_tables)?;
    let stale = sets_copied(alloc, old_stale)?;
    Ok(Work {
        base,
        own,
        held,
        tables,
        stale,
    })
}

fn request_copied(request: &Request) -> Result<Request, NoMemory>
    ensures { IfOk result (λ copy. copy ≡ request.now) }
{
    Ok(match request {
        Request::TakeSnapshot => Request::TakeSnapshot,
        Request::Run(statement) => Request::Run(checked_copied(statement)?),
        Request::Lock(table) => Request::Lock(*table),
        Request::Commit => Request::Commit,
        Request::Rollback => Request::Rollback,
        Request::ReadSerial(table) => Request::ReadSerial(*table),
        Request::SetSerial(table, next) => Request::SetSerial(*table, *next),
    })
}

pub(crate) fn waiting_copied(waits: &Option<Request>) -> Result<Option<Request>, NoMemory>
    ensures { IfOk result (λ copy. copy ≡ waits.now) }
{
    match waits {
        Some(request) => Ok(Some(request_copied(request)?)),
        None => Ok(None),
    }
}
