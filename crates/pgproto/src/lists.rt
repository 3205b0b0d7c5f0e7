//! Readers of the lists of a line: a count, and then the items.
ghost use Rattle.std.specs.Prelude.{◌≡◌, ◌≤◌, ◌<◌, ℕ, length, IfOk};
ghost use Rattle.pgproto.specs.Reading.{Gives, counted_at, items_at, most_items, number_at, spaced_at, value_at};

use crate::line::ScriptValue;
use crate::parts::{spaced_number, spaced_value};
use crate::stop::Stop;
use pool_base::List;
use std::alloc::Global;

/// The greatest count of a list of a message.
const MOST_ITEMS: u32 = 32767;

/// A count and so many 32-bit numbers.
#[tactic(auto, unfolding(crate::specs::Reading::counted_at))]
pub(crate) fn kinds(alloc: Global, bytes: &[u8]) -> Result<(List<u32>, &[u8]), Stop>
    ensures { Gives (λ x. (x.0, x.1.now)) result (counted_at (number_at 4294967295) bytes.now) }
{
    let (count, rest) = spaced_number(MOST_ITEMS, bytes)?;
    let (found, rest) = kind_items(alloc, count, rest)?;
    Ok((List::from_vec(found), rest))
}

fn kind_items(alloc: Global, count: u32, bytes: &[u8]) -> Result<(Vec<u32>, &[u8]), Stop>
    ensures { Gives
        (λ x. (x.0.items, x.1.now)) result (items_at (number_at 4294967295) count bytes.now) }
{
    let mut found = Vec::new(alloc);
    let mut rest = bytes;
    for taken in 0..count {
        let (item, after) = spaced_number(u32::MAX, rest)?;
        rest = after;
        found.push(item)?;
    }
    Ok((found, rest))
}

/// A count and so many 16-bit numbers.
#[tactic(auto, unfolding(crate::specs::Reading::counted_at))]
pub(crate) fn formats(alloc: Global, bytes: &[u8]) -> Result<(List<u16>, &[u8]), Stop>
    ensures { Gives (λ x. (x.0, x.1.now)) result (counted_at (number_at 65535) bytes.now) }
{
    let (count, rest) = spaced_number(MOST_ITEMS, bytes)?;
    let (found, rest) = format_items(alloc, count, rest)?;
    Ok((List::from_vec(found), rest))
}

fn format_items(alloc: Global, count: u32, bytes: &[u8]) -> Result<(Vec<u16>, &[u8]), Stop>
    ensures { Gives
        (λ x. (x.0.items, x.1.now)) result (items_at (number_at 65535) count bytes.now) }
{
    let mut found = Vec::new(alloc);
    let mut rest = bytes;
    for taken in 0..count {
        let (item, after) = spaced_number(65535, rest)?;
        rest = after;
        found.push(item as u16)?;
    }
    Ok((found, rest))
}

/// A count and so many values.
#[tactic(auto, unfolding(crate::specs::Reading::counted_at))]
pub(crate) fn values(alloc: Global, bytes: &[u8]) -> Result<(List<ScriptValue>, &[u8]), Stop>
    ensures { Gives (λ x. (x.0, x.1.now)) result (counted_at value_at bytes.now) }
{
    let (count, rest) = spaced_number(MOST_ITEMS, bytes)?;
    let (found, rest) = value_items(alloc, count, rest)?;
    Ok((List::from_vec(found), rest))
}

fn value_items(alloc: Global, count: u32, bytes: &[u8]) -> Result<(Vec<ScriptValue>, &[u8]), Stop>
    ensures { Gives (λ x. (x.0.items, x.1.now)) result (items_at value_at count bytes.now) }
{
    let mut found = Vec::new(alloc);
    let mut rest = bytes;
    for taken in 0..count {
        let (item, after) = spaced_value(alloc, rest)?;
        rest = after;
        found.push(item)?;
    }
    Ok((found, rest))
}
