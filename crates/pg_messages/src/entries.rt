//! Lists of a body: behind a count, or up to a zero byte.
ghost use Rattle.std.specs.Prelude.{ℕ, List as Sequence, Option, ◌≡◌};
ghost use Rattle.std.specs.Int.{w16, w32};
ghost use Rattle.pg_messages.specs.Reading.{Gives, number_at, value_at, field_at, part_at, pair_at, entries_at, counted_at, entries_below, zero_ended_at};

use crate::field_fault::FieldFault;
use crate::fields::{field_of, pair_of, part_of, u16_of, u32_of, value_of};
use crate::server::{Field, Part};
use crate::start::Pair;
use pool_base::List;
use std::alloc::Global;

/// What a list of a body may hold.
pub trait Entry: Sized + Drop {
    ghost entry_at: { Sequence ℕ → Option (Self × Sequence ℕ) };

    fn entry_of(alloc: Global, bytes: &[u8]) -> Result<(Self, &[u8]), FieldFault>
        ensures { Gives (λ x. (x.0, x.1.now)) result (entry_at bytes.now) };
}

impl Entry for u16 {
    ghost entry_at = { number_at w16 };

    fn entry_of(_alloc: Global, bytes: &[u8]) -> Result<(u16, &[u8]), FieldFault> {
        u16_of(bytes)
    }
}

impl Entry for u32 {
    ghost entry_at = { number_at w32 };

    fn entry_of(_alloc: Global, bytes: &[u8]) -> Result<(u32, &[u8]), FieldFault> {
        u32_of(bytes)
    }
}

impl Entry for Option<List<u8>> {
    ghost entry_at = { value_at };

    fn entry_of(alloc: Global, bytes: &[u8]) -> Result<(Option<List<u8>>, &[u8]), FieldFault> {
        value_of(alloc, bytes)
    }
}

impl Entry for Field {
    ghost entry_at = { field_at };

    fn entry_of(alloc: Global, bytes: &[u8]) -> Result<(Field, &[u8]), FieldFault> {
        field_of(alloc, bytes)
    }
}

impl Entry for Part {
    ghost entry_at = { part_at };

    fn entry_of(alloc: Global, bytes: &[u8]) -> Result<(Part, &[u8]), FieldFault> {
        part_of(alloc, bytes)
    }
}

impl Entry for Pair {
    ghost entry_at = { pair_at };

    fn entry_of(alloc: Global, bytes: &[u8]) -> Result<(Pair, &[u8]), FieldFault> {
        pair_of(alloc, bytes)
    }
}

fn entries_of<E: Entry>(
    alloc: Global,
    count: u16,
    bytes: &[u8],
) -> Result<(List<E>, &[u8]), FieldFault>
    ensures { Gives (λ x. (x.0, x.1.now)) result (entries_at E.entry_at count bytes.now) }
{
    let mut entries = List::new(alloc);
    let mut rest = bytes;
    for _ in 0..count {
        let (entry, after) = E::entry_of(alloc, rest)?;
        entries.push(entry)?;
        rest = after;
    }
    Ok((entries, rest))
}

/// A list behind an Int16 count, which is not negative.
#[tactic(auto, unfolding(crate::specs::Reading::counted_at))]
pub fn counted_of<E: Entry>(alloc: Global, bytes: &[u8]) -> Result<(List<E>, &[u8]), FieldFault>
    ensures { Gives (λ x. (x.0, x.1.now)) result (counted_at E.entry_at bytes.now) }
{
    let (count, rest) = u16_of(bytes)?;
    if count >= 32768 {
        return Err(FieldFault::Malformed);
    }
    entries_of(alloc, count, rest)
}

/// A list that a zero byte ends.
pub fn zero_ended_of<E: Entry>(alloc: Global, bytes: &[u8]) -> Result<(List<E>, &[u8]), FieldFault>
    ensures { Gives (λ x. (x.0, x.1.now)) result (zero_ended_at E.entry_at bytes.now) }
{
    let mut entries = List::new(alloc);
    let mut rest = bytes;
    // Each entry takes a byte or more.
    for _ in 0..bytes.len() {
        let Some(first) = rest.first() else {
            return Err(FieldFault::Malformed);
        };
        if *first == 0 {
            let (_, after) = rest.split_at(1);
            return Ok((entries, after));
        }
        let (entry, after) = E::entry_of(alloc, rest)?;
        entries.push(entry)?;
        rest = after;
    }
    Err(FieldFault::Malformed)
}
