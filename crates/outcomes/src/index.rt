//! The sets of a log by the places that they have changed.
ghost use Rattle.std.specs.Prelude.{◌≡◌, ◌<◌, ◌≤◌, ◌+◌, ◌∷◌, ◌++◌, List as Sequence, [], IfErr, IfOk, IsTrue, OnOk, T, length, take};
ghost use Rattle.std.specs.FinMap.{is_sorted};
ghost use Rattle.std.specs.Option.{option_map};
ghost use Rattle.backend_trait.specs.Effect.{place_changed};
ghost use Rattle.backend_trait.specs.Keys.{Place, place, place_order};
ghost use Rattle.outcomes.specs.Chains.{all_chained, chained, AreOfSets, ArePut, IsPut};
ghost use Rattle.outcomes.specs.Sights.{is_before, is_passed, is_up_to};
ghost use Rattle.outcomes.specs.Spread.{IsParted, StandsAt, StandsBetween};

use crate::chain::{Chain, Version};
use crate::change::ChangeSet;
use crate::spot::place_order;
use pg_values::Value;
use pool_base::NoMemory;
use sql_eval::{Change, Row};
use std::alloc::Global;
use std::cmp::Ordering;
use std::mem;

/// The first sets of a log by the places that they have changed: at each place what each set has
/// left there, so that the rows behind any of them are seen.
#[derive(Drop)]
pub struct Index {
    pub chains: Vec<Chain>,
    /// How many sets it has.
    pub sets: usize,
    ghost sorted: { T (is_sorted place_order (all_chained chains.items)) },
}

/// How a chain stands to a place.
fn order_at(chain: &Chain, table: u8, key: &Value) -> Ordering
    ensures { result ≡ place_order (chained chain.now).0 (place table key.now) }
{
    place_order(chain.table, &chain.key, table, key)
}

/// Whether all chains stand before a place.
fn are_before(chains: &[Chain], table: u8, key: &Value) -> bool
    requires { T (is_sorted place_order (all_chained chains.now)) }
    ensures { IsTrue result → StandsBetween place_order (place table key.now)
        (all_chained chains.now) (length chains.now) }
{
    match chains.last() {
        None => true,
        Some(last) => order_at(last, table, key).is_lt(),
    }
}

/// The number of the chain at a place, or else of the chain before which it would stand. Where
/// rows come in the order of their places, each stands behind all before it: that is looked at
/// first.
pub(crate) fn number_of(chains: &[Chain], table: u8, key: &Value) -> Result<usize, usize>
    requires { T (is_sorted place_order (all_chained chains.now)) }
    ensures at { IfOk result (λ n. (n < length chains.now)
        × StandsAt place_order (place table key.now) (all_chained chains.now) n) }
    ensures between { IfErr result (λ n. (n ≤ length chains.now)
        × StandsBetween place_order (place table key.now) (all_chained chains.now) n) }
{
    if are_before(chains, table, key) {
        return Err(chains.len());
    }
    chains.binary_search_by(
        |chain: &Chain| -> Ordering
            ensures { result ≡ place_order (chained chain.now).0 (place table key.entry.now) }
        { order_at(chain, table, key) },
    )
}

/// The number of the first chain that is of a table or of a later one.
fn first_in(chains: &[Chain], table: u8) -> usize
    requires { T (is_sorted place_order (all_chained chains.now)) }
    ensures { IsParted (is_before table) (all_chained chains.now) result }
{
    chains.partition_point(
        |chain: &Chain| -> bool
            ensures { result ≡ is_before table (chained chain.now) }
        { chain.table < table },
    )
}

/// The number of the first chain that stands behind a place.
fn first_behind(chains: &[Chain], table: u8, key: &Value) -> usize
    requires { T (is_sorted place_order (all_chained chains.now)) }
    ensures { IsParted (is_up_to (place table key.now)) (all_chained chains.now) result }
{
    chains.partition_point(
        |chain: &Chain| -> bool
            ensures { result ≡ is_up_to (place table key.entry.now) (chained chain.now) }
        { !order_at(chain, table, key).is_gt() },
    )
}

/// The number of the first chain of a table behind a key, or of all, or of a later table.
pub(crate) fn first_of(chains: &[Chain], table: u8, key: Option<&Value>) -> usize
    requires { T (is_sorted place_order (all_chained chains.now)) }
    ensures { IsParted (is_passed table (option_map (λ k. k.now) key.entry))
        (all_chained chains.now) result }
{
    match key {
        None => first_in(chains, table),
        Some(key) => first_behind(chains, table, key),
    }
}

/// A copy of what a change leaves.
fn row_copied(row: &Option<Row>) -> Result<Option<Row>, NoMemory>
    ensures { IfOk result (λ copy. copy ≡ row.now) }
{
    match row {
        Some(row) => {
            let copy = row.clone()?;
            Ok(Some(copy))
        }
        None => Ok(None),
    }
}

/// A version more at the end of a chain.
fn lengthen(chain: &mut Chain, version: Version) -> Result<(), NoMemory>
    ensures { OnOk result (chained chain.new
        ≡ ((chained chain.old).0, (chained chain.old).1 ++ version ∷ [])) }
{
    chain.versions.push(version)?;
    Ok(())
}

/// A version at a place where none is yet.
fn begin(
    alloc: Global,
    chains: &mut Vec<Chain>,
    number: usize,
    change: &Change,
    version: Version,
) -> Result<(), NoMemory>
    requires sorted { T (is_sorted place_order (all_chained chains.old.items)) }
    requires bound { number ≤ length chains.old.items }
    requires between { StandsBetween place_order (place_changed change.now)
        (all_chained chains.old.items) number }
    ensures { OnOk result (IsPut version.set (place_changed change.now) version.row
        (all_chained chains.old.items) (all_chained chains.new.items)) }
{
    let key = change.key.clone()?;
    let mut versions = Vec::with_capacity(alloc, 1)?;
    versions.push(version)?;
    let table = change.table;
    chains.insert(
        number,
        Chain {
            table,
            key,
            versions,
        },
    )?;
    Ok(())
}

/// A version more at a place where some are.
fn go_on(chains: &mut Vec<Chain>, number: usize, version: Version) -> Result<(), NoMemory>
    requires sorted { T (is_sorted place_order (all_chained chains.old.items)) }
    requires below { number < length chains.old.items }
    ensures { (p : Place) → StandsAt place_order p (all_chained chains.old.items) number
        → OnOk result (IsPut version.set p version.row (all_chained chains.old.items)
        (all_chained chains.new.items)) }
{
    lengthen(&mut chains[number], version)
}

/// A set's change is put at its place.
fn put(alloc: Global, chains: &mut Vec<Chain>, set: usize, change: &Change) -> Result<(), NoMemory>
    requires { T (is_sorted place_order (all_chained chains.old.items)) }
    ensures { OnOk result (IsPut set (place_changed change.now) change.now.row
        (all_chained chains.old.items) (all_chained chains.new.items)) }
{
    let row = row_copied(&change.row)?;
    let version = Version { set, row };
    match number_of(chains.as_slice(), change.table, &change.key) {
        Ok(number) => go_on(chains, number, version),
        Err(number) => begin(alloc, chains, number, change, version),
    }
}

/// A set's changes are put at their places.
pub(crate) fn put_all(
    alloc: Global,
    chains: &mut Vec<Chain>,
    set: usize,
    changes: &[Change],
) -> Result<(), NoMemory>
    requires { T (is_sorted place_order (all_chained chains.old.items)) }
    ensures { OnOk result (ArePut set changes.now (all_chained chains.old.items)
        (all_chained chains.new.items)) }
{
    for change in changes {
        put(alloc, chains, set, change)?;
    }
    Ok(())
}

/// The sets of a log from that number on are put.
fn put_sets(
    alloc: Global,
    chains: &mut Vec<Chain>,
    from: usize,
    log: &[ChangeSet],
) -> Result<(), NoMemory>
    requires sorted { T (is_sorted place_order (all_chained chains.old.items)) }
    requires bound { from ≤ length log.now }
    requires sets { AreOfSets (all_chained chains.old.items) (take from log.now) }
    ensures sorted { OnOk result (T (is_sorted place_order (all_chained chains.new.items))) }
    ensures sets { OnOk result (AreOfSets (all_chained chains.new.items) log.now) }
{
    for set in from..log.len() {
        put_all(alloc, chains, set, log[set].changes.as_slice())?;
    }
    Ok(())
}

impl Index {
    ghost use Rattle.outcomes.specs.declared.change.ChangeSet.{ChangeSet};
    ghost use Rattle.outcomes.specs.Indexed.{IsIndexOf};

    /// The index of a log without sets.
    pub fn new(alloc: Global) -> Index
        ensures { (log : Sequence ChangeSet) → IsIndexOf result log }
    {
        Index {
            chains: Vec::new(alloc),
            sets: 0,
        }
    }

    /// Takes up the sets that the log has got. After want of memory it begins anew.
    pub fn follow(&mut self, alloc: Global, log: &[ChangeSet]) -> Result<(), NoMemory>
        requires { IsIndexOf self.old log.now }
        ensures known { IsIndexOf self.new log.now }
        ensures all { OnOk result (self.new.sets ≡ length log.now) }
    {
        let Index { mut chains, sets } = mem::replace(self, Index::new(alloc));
        put_sets(alloc, &mut chains, sets, log)?;
        let sets = log.len();
        drop(mem::replace(self, Index { chains, sets }));
        Ok(())
    }
}
