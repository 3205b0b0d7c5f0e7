//! All changes of a log, in the order of their places.
ghost use Rattle.std.specs.Prelude.{◌≡◌, ◌++◌, IfOk, OnOk, map};
ghost use Rattle.backend_trait.specs.Effect.{changes_of, place_changed};
ghost use Rattle.backend_trait.specs.Keys.{place_order};
ghost use Rattle.backend_trait.specs.Rows.{Rows, laid_over};
ghost use Rattle.outcomes.specs.Gathered.{changes_in};
ghost use Rattle.outcomes.specs.Log.{rows_on};
ghost use Rattle.outcomes.specs.Sights.{all_laid};

use crate::change::ChangeSet;
use crate::spot::place_order;
use pool_base::NoMemory;
use sql_eval::Change;
use std::alloc::{AllocError, Global};
use std::cmp::Ordering;

/// How the places of two changes stand.
fn change_order(a: &Change, b: &Change) -> Ordering
    ensures { result ≡ place_order (place_changed a.now) (place_changed b.now) }
{
    place_order(a.table, &a.key, b.table, &b.key)
}

/// Puts changes behind others.
fn gather<'a>(all: &mut Vec<&'a Change>, changes: &'a [Change]) -> Result<(), NoMemory>
    ensures { OnOk result (map (λ c. c.now) all.new.items
        ≡ map (λ c. c.now) all.old.items ++ changes.now) }
{
    for change in changes {
        all.push(change)?;
    }
    Ok(())
}

/// The changes of all sets, one set behind another.
fn gather_sets<'a>(alloc: Global, log: &'a [ChangeSet]) -> Result<Vec<&'a Change>, NoMemory>
    ensures { IfOk result (λ all. map (λ c. c.now) all.items ≡ changes_in log.now) }
{
    let mut all = Vec::new(alloc);
    for set in log {
        gather(&mut all, set.changes.as_slice())?;
    }
    Ok(all)
}

/// Puts changes in the order of their places; those at one place stay in theirs, so that they leave
/// what they left.
fn put_in_order(all: &mut Vec<&Change>) -> Result<(), AllocError>
    ensures { (rows : Rows) → all_laid rows (map (λ c. c.now) all.new.items)
        ≡ all_laid rows (map (λ c. c.now) all.old.items) }
{
    all.sort_by(|a, b| change_order(a, b))
}

/// The changes of sets and those that follow them, in the order of their places: they leave what
/// they leave in the order in which they were made.
pub(crate) fn in_order<'a>(
    alloc: Global,
    log: &'a [ChangeSet],
    own: &'a [Change],
) -> Result<Vec<&'a Change>, NoMemory>
    ensures { IfOk result (λ all. (rows : Rows) → all_laid rows (map (λ c. c.now) all.items)
        ≡ laid_over (changes_of own.now) (rows_on rows log.now)) }
{
    let mut all = gather_sets(alloc, log)?;
    gather(&mut all, own)?;
    put_in_order(&mut all)?;
    Ok(all)
}
