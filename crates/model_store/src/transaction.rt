//! The steps of a live transaction.
ghost use Rattle.std.specs.Prelude.{◌≡◌, ◌≤◌, ◌+◌, List as Sequence, length, map, vec_len, vec_capacity};
ghost use Rattle.backend_trait.specs.Store.{begun};
ghost use Rattle.outcomes.specs.declared.change.ChangeSet.{ChangeSet};
ghost use Rattle.outcomes.specs.Log.{rows_of};
ghost use Rattle.outcomes.specs.Spots.{place_of};
ghost use Rattle.model_store.specs.Phases.{live_of, live_after, with_lock};

use crate::phase::Work;
use crate::room::put_all;
use outcomes::{ChangeSet, Spot};
use sql_eval::Change;
use std::alloc::Global;

/// A transaction on the rows as they are committed now.
pub(crate) fn begun(alloc: Global, log: &[ChangeSet]) -> Work
    ensures live { live_of log.now result ≡ begun (rows_of log.now) }
    ensures mark { result.mark ≡ length log.now }
{
    Work {
        mark: log.len(),
        own: ChangeSet {
            changes: Vec::new(alloc),
        },
        held: Vec::new(alloc),
        locks: [false; 256],
    }
}

/// Puts changes and places into a transaction, which has room for them.
pub(crate) fn take_changes(work: &mut Work, more: Vec<Change>, places: Vec<Spot>)
    requires changes { vec_len work.old.own.changes + vec_len more
        ≤ vec_capacity work.old.own.changes }
    requires places { vec_len work.old.held + vec_len places ≤ vec_capacity work.old.held }
    ensures live { (log : Sequence ChangeSet) → live_of log work.new
        ≡ live_after more.items (map place_of places.items) (live_of log work.old) }
    ensures mark { work.new.mark ≡ work.old.mark }
{
    put_all(&mut work.own.changes, more);
    put_all(&mut work.held, places);
}

/// Gives a transaction the lock of a table.
pub(crate) fn take_lock(work: &mut Work, table: u8)
    ensures live { (log : Sequence ChangeSet) → live_of log work.new
        ≡ with_lock table (live_of log work.old) }
    ensures mark { work.new.mark ≡ work.old.mark }
{
    work.locks[usize::from(table)] = true;
}
