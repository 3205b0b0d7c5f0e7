//! What the program keeps of a store.
ghost use Rattle.std.specs.Prelude.{◌≡◌, length};
ghost use Rattle.plain_store.specs.Kept.{AreKept, AreKept-prop, AreRowsIn, AreRowsIn-prop, AreSeenIn, AreSeenIn-prop, KeepsRows, KeepsRows-prop};

use backend_trait::{Catalogue, Request};
use outcomes::{ChangeSet, NextNumbers, Spot};
use pool_base::List;
use std::alloc::Global;

/// What a request wants: some places, or the lock of a table.
#[derive(Clone, Copy)]
pub enum Wanted<'a> {
    Places(&'a [Spot]),
    Table(u8),
}

/// A transaction that is live.
#[derive(Drop)]
pub struct Work {
    /// The sets that were committed at its snapshot, oldest first.
    pub base: Vec<ChangeSet>,
    /// Its own changes.
    pub own: ChangeSet,
    /// The places that its statements wanted: it holds them.
    pub held: Vec<Spot>,
    /// The tables that it has locked.
    pub tables: List<u8>,
    /// The sets that were committed since its snapshot.
    pub stale: Vec<ChangeSet>,
}

/// A session's transaction.
#[derive(Drop)]
pub enum Phase {
    Absent,
    Alive(Work),
    Dead,
}

/// A store: its tables, the next numbers of their serial columns, the sets that were committed, and
/// for each session by its number the transaction, the request that waits, and whether that one is
/// crossed.
#[derive(Drop)]
pub struct Database {
    pub(crate) alloc: Global,
    pub catalogue: Catalogue,
    pub numbers: NextNumbers,
    pub log: Vec<ChangeSet>,
    pub phases: Vec<Phase>,
    pub requests: Vec<Option<Request>>,
    pub crossed: Vec<bool>,
    pub is_lost: bool,
    ghost phased: { length phases.items ≡ 65 },
    ghost requested: { length requests.items ≡ 65 },
    ghost marked: { length crossed.items ≡ 65 },
    // A statement that waits can be run, and a number that is to be set is 1 at least.
    ghost kept: { AreKept catalogue requests.items } by { AreKept-prop catalogue requests.items },
    // What was committed, and what a transaction sees, stands in its tables: statements keep it so.
    ghost committed: { AreRowsIn catalogue log.items } by { AreRowsIn-prop catalogue log.items },
    ghost stored: { AreSeenIn catalogue phases.items } by { AreSeenIn-prop catalogue phases.items },
    ghost keeping: { KeepsRows catalogue } by { KeepsRows-prop catalogue },
}
