//! Transactions of several sessions, side by side.
use crate::store::asking::is_granted;
use crate::store::inserts::insert_of_rows;
use backend_trait::Request;
use model_store::{MemoryStore, select_of};
use pool_base::{NoMemory, SessionId};
use std::alloc::Global;

/// What each session asks in its transaction.
pub const ACTS: u32 = 4;

/// What the sessions go through.
#[derive(Clone, Copy)]
pub struct Load {
    /// The sessions that are side by side.
    pub sessions: u8,
    /// The transactions of each session, one behind another.
    pub transactions: u32,
    /// The rows that each transaction puts.
    pub rows: u32,
}

/// The key that stands so many behind another.
pub fn key_behind(key: i32, count: u32) -> i32 {
    key.wrapping_add(i32::try_from(count).unwrap_or(i32::MAX))
}

/// The request at that place of a transaction that puts so many rows, the first of them at a key.
fn request_at(alloc: Global, act: u32, key: i32, rows: u32) -> Result<Request, NoMemory> {
    Ok(match act {
        0 => Request::TakeSnapshot,
        1 => Request::Run(select_of(alloc, key, false)?),
        2 => Request::Run(insert_of_rows(alloc, key, rows)?),
        _ => Request::Commit,
    })
}

/// Each session asks in its turn. Whether all are granted.
fn all_ask(
    alloc: Global,
    store: &mut MemoryStore,
    load: &Load,
    act: u32,
    first_key: i32,
) -> Result<bool, NoMemory> {
    let mut key = first_key;
    for number in 0..load.sessions {
        let Some(s) = SessionId::from_number(1 + u32::from(number)) else {
            return Ok(false);
        };
        if !is_granted(store, s, request_at(alloc, act, key, load.rows)?) {
            return Ok(false);
        }
        key = key_behind(key, load.rows);
    }
    Ok(true)
}

/// The sessions go through one transaction each, side by side. Whether all was granted.
fn one_round(
    alloc: Global,
    store: &mut MemoryStore,
    load: &Load,
    first_key: i32,
) -> Result<bool, NoMemory> {
    for act in 0..ACTS {
        if !all_ask(alloc, store, load, act, first_key)? {
            return Ok(false);
        }
    }
    Ok(true)
}

/// The sessions go through their transactions; the keys go up from the first. Whether all was
/// granted.
pub fn rounds(
    alloc: Global,
    store: &mut MemoryStore,
    load: &Load,
    first_key: i32,
) -> Result<bool, NoMemory> {
    let mut key = first_key;
    for done in 0..load.transactions {
        if !one_round(alloc, store, load, key)? {
            return Ok(false);
        }
        key = key_behind(key, u32::from(load.sessions).saturating_mul(load.rows));
    }
    Ok(true)
}
