//! The store.
ghost use Rattle.std.specs.Prelude.{◌≡◌, ◌≤◌, ◌+◌, ℕ, [], IfOk, length, slice_get, vec_len, vec_capacity};
ghost use Rattle.schema.specs.Allowed.{AreAllowed};
ghost use Rattle.model_store.specs.Seats.{mark_in, all_owed, AreGiven, AreGiven-prop as prop};
ghost use Rattle.model_store.specs.Conflicts.{AreApart};
ghost use Rattle.outcomes.specs.Next.{next_of};
ghost use Rattle.outcomes.specs.Stored.{AreAllStored};
ghost use Rattle.outcomes.specs.Indexed.{IsIndexOf};
ghost use Rattle.model_store.specs.Stored.{AreEachStored, all_stored-prop, each_stored-prop, index-prop};

use crate::phase::Phase;
use crate::seat::Seat;
use crate::waiting::SEATS;
use backend_trait::Catalogue;
use catalogue::{SchemaFault, read_schema};
use outcomes::{ChangeSet, Index, NextNumbers};
use pool_base::NoMemory;
use std::alloc::Global;

/// A database in memory, with up to 64 sessions.
#[derive(Drop)]
pub struct MemoryStore {
    pub(crate) alloc: Global,
    pub(crate) catalogue: Catalogue,
    /// The next numbers of serial columns.
    pub(crate) numbers: NextNumbers,
    /// The sets of changes that were committed, oldest first.
    pub(crate) log: Vec<ChangeSet>,
    /// The sets by the places that they have changed. It takes up at each statement those that were
    /// committed since the last one.
    pub(crate) index: Index,
    /// The seat of each session at its number.
    pub(crate) seats: Vec<Seat>,
    pub(crate) is_lost: bool,
    pub(crate) faults: u64,
    ghost all_seated: { length seats.items ≡ 65 },
    ghost apart: { AreApart seats.items },
    // What was committed at a snapshot stays at the log's front.
    ghost marked: { (s : ℕ) → mark_in (slice_get seats.items s) ≤ length log.items },
    // A schema can have the tables, and what stands in the log and in each transaction is of its
    // table.
    ghost allowed: { ∥ AreAllowed catalogue ∥₁ },
    ghost committed: { AreAllStored catalogue log.items } by { all_stored-prop _ _ },
    ghost stored: { AreEachStored catalogue seats.items } by { each_stored-prop _ _ },
    // The index has the first sets of the log.
    ghost indexed: { IsIndexOf index log.items } by { index-prop index _ },
    // What each statement gives that waits is its effect.
    ghost given: { AreGiven (next_of numbers) catalogue log.items seats.items } by { prop _ _ _ _ },
    // Each live transaction has room for its set.
    ghost roomy: { vec_len log + all_owed seats.items ≤ vec_capacity log },
}

/// A catalogue without tables.
fn no_tables(alloc: Global) -> Result<Catalogue, NoMemory>
    ensures { IfOk result (λ catalogue. catalogue ≡ []) }
{
    let text = "";
    match read_schema(alloc, text.as_bytes()) {
        Ok(catalogue) => Ok(catalogue),
        Err(SchemaFault::NoMemory) => Err(NoMemory),
        Err(SchemaFault::BadLine(_)) => unreachable!(),
    }
}

impl MemoryStore {
    ghost use Rattle.backend_trait.specs.Store.{blank};
    ghost use Rattle.model_store.specs.Meaning.{meaning};

    /// A store before its first request. It takes the memory of its seats.
    pub fn new(alloc: Global) -> Result<MemoryStore, NoMemory>
        ensures { IfOk result (λ store. meaning store ≡ blank) }
    {
        let mut seats: Vec<Seat> = Vec::with_capacity(alloc, SEATS)?;
        for _ in 0..SEATS {
            seats.push(Seat {
                phase: Phase::Absent,
                waiting: None,
            })?;
        }
        let catalogue = no_tables(alloc)?;
        let numbers = NextNumbers::new(&catalogue);
        Ok(MemoryStore {
            alloc,
            catalogue,
            numbers,
            log: Vec::new(alloc),
            index: Index::new(alloc),
            seats,
            is_lost: false,
            faults: 0,
        })
    }
}
