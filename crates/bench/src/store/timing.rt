//! The runs that are timed, and what is told of them.
use crate::store::turns::{ACTS, Load, key_behind, rounds};
use backend_trait::Backend;
use model_store::{MemoryStore, trial_tables};
use pool_base::NoMemory;
use std::alloc::Global;
use std::io;
use std::time::{Duration, Instant};

/// So many transactions are timed, whatever the number of sessions.
const TRANSACTIONS: u8 = 192;

/// A store of the table for trials.
fn store_of(alloc: Global) -> Result<MemoryStore, NoMemory> {
    let mut store = MemoryStore::new(alloc)?;
    store.prepare(&trial_tables(alloc)?)?;
    Ok(store)
}

/// Whether all rounds were granted.
fn went(rt: HostRuntime, store: &mut MemoryStore, load: &Load, key: i32) -> io::Result<bool> {
    match rounds(rt.alloc(), store, load, key) {
        Ok(all) => Ok(all),
        Err(NoMemory) => Err(io::ErrorKind::OutOfMemory.into()),
    }
}

/// Fills a store by so many transactions of so many rows, and times transactions of 1, 8 and 64
/// sessions over it. Whether all was granted.
pub fn run(rt: HostRuntime, transactions: u32, rows: u32) -> io::Result<bool> {
    let mut store = match store_of(rt.alloc()) {
        Ok(store) => store,
        Err(NoMemory) => return Err(io::ErrorKind::OutOfMemory.into()),
    };
    let load = Load {
        sessions: 1,
        transactions,
        rows,
    };
    if !filled(rt, &mut store, &load)? {
        return Ok(false);
    }
    let mut key = key_behind(0, transactions.saturating_mul(rows));
    for sessions in [1, 8, 64] {
        if !timed(rt, &mut store, sessions, key)? {
            return Ok(false);
        }
        key = key.wrapping_add(i32::from(TRANSACTIONS));
    }
    Ok(true)
}

/// Fills the store by the load.
fn filled(rt: HostRuntime, store: &mut MemoryStore, load: &Load) -> io::Result<bool> {
    let start = Instant::now(&rt)?;
    if !went(rt, store, load, 0)? {
        return Ok(false);
    }
    let time = start.elapsed(&rt)?;
    let Load {
        transactions,
        rows,
        ..
    } = *load;
    println!(rt; "{transactions} transactions of {ACTS} acts, rows committed by each: {rows}")?;
    tell(rt, "filling", transactions, time)?;
    Ok(true)
}

/// Times transactions of so many sessions, each of which puts a row.
fn timed(rt: HostRuntime, store: &mut MemoryStore, sessions: u8, key: i32) -> io::Result<bool> {
    let load = Load {
        sessions,
        transactions: u32::from(TRANSACTIONS / sessions.max(1)),
        rows: 1,
    };
    let start = Instant::now(&rt)?;
    if !went(rt, store, &load, key)? {
        return Ok(false);
    }
    let time = start.elapsed(&rt)?;
    println!(rt; "{TRANSACTIONS} transactions of {ACTS} acts, {sessions} at a time")?;
    tell(rt, "going through them", u32::from(TRANSACTIONS), time)?;
    Ok(true)
}

/// Tells the acts of a second.
fn tell(rt: HostRuntime, what: &str, transactions: u32, time: Duration) -> io::Result<()> {
    let acts = u128::from(transactions) * u128::from(ACTS);
    let each = acts.saturating_mul(1_000_000_000) / time.as_nanos().max(1);
    eprintln!(rt; "{what}: {each} acts a second")
}
