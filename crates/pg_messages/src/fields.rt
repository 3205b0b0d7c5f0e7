//! Fields, read from the front of a body.
ghost use Rattle.std.specs.Prelude.{◌≡◌, ◌==◌, ℕ};
ghost use Rattle.std.specs.List.{position};
ghost use Rattle.std.specs.Int.{w16, w32};
ghost use Rattle.pg_messages.specs.Reading.{Gives, number_at, signed_at, string_at, value_at, field_at, part_at, pair_at, target_at, whole};

use crate::field_fault::FieldFault;
use crate::server::{Field, Part};
use crate::start::Pair;
use pool_base::List;
use std::alloc::Global;

pub fn u16_of(bytes: &[u8]) -> Result<(u16, &[u8]), FieldFault>
    ensures { Gives (λ x. (x.0, x.1.now)) result (number_at w16 bytes.now) }
{
    match bytes {
        [high, low, rest @ ..] => Ok((u16::from_be_bytes([*high, *low]), rest)),
        _ => Err(FieldFault::Malformed),
    }
}

pub fn i16_of(bytes: &[u8]) -> Result<(i16, &[u8]), FieldFault>
    ensures { Gives (λ x. (x.0, x.1.now)) result (signed_at w16 bytes.now) }
{
    let (number, rest) = u16_of(bytes)?;
    Ok((number.cast_signed(), rest))
}

pub fn u32_of(bytes: &[u8]) -> Result<(u32, &[u8]), FieldFault>
    ensures { Gives (λ x. (x.0, x.1.now)) result (number_at w32 bytes.now) }
{
    if bytes.len() < 4 {
        return Err(FieldFault::Malformed);
    }
    let (front, rest) = bytes.split_at(4);
    let number = u32::from_be_bytes([front[0], front[1], front[2], front[3]]);
    Ok((number, rest))
}

pub fn i32_of(bytes: &[u8]) -> Result<(i32, &[u8]), FieldFault>
    ensures { Gives (λ x. (x.0, x.1.now)) result (signed_at w32 bytes.now) }
{
    let (number, rest) = u32_of(bytes)?;
    Ok((number.cast_signed(), rest))
}

/// Where the first zero byte stands.
fn zero_in(bytes: &[u8]) -> Option<usize>
    ensures { result ≡ position (λ b. b == 0) bytes.now }
{
    bytes.iter().position(|byte| *byte == 0)
}

#[tactic(auto, unfolding(crate::specs::Reading::string_at))]
pub fn string_of(alloc: Global, bytes: &[u8]) -> Result<(List<u8>, &[u8]), FieldFault>
    ensures { Gives (λ x. (x.0, x.1.now)) result (string_at bytes.now) }
{
    let Some(end) = zero_in(bytes) else {
        return Err(FieldFault::Malformed);
    };
    let (text, _) = bytes.split_at(end);
    let (_, rest) = bytes.split_at(end + 1);
    Ok((List::from_slice(alloc, text)?, rest))
}

#[tactic(auto, unfolding(crate::specs::Reading::value_at))]
pub fn value_of(alloc: Global, bytes: &[u8]) -> Result<(Option<List<u8>>, &[u8]), FieldFault>
    ensures { Gives (λ x. (x.0, x.1.now)) result (value_at bytes.now) }
{
    let (length, rest) = u32_of(bytes)?;
    if length == u32::MAX {
        return Ok((None, rest));
    }
    let length = length as usize;
    if rest.len() < length {
        return Err(FieldFault::Malformed);
    }
    let (value, rest) = rest.split_at(length);
    Ok((Some(List::from_slice(alloc, value)?), rest))
}

/// Whether a portal is meant, or else a statement.
#[tactic(auto, unfolding(crate::specs::Reading::target_at))]
pub fn target_of(bytes: &[u8]) -> Result<(bool, &[u8]), FieldFault>
    ensures { Gives (λ x. (x.0, x.1.now)) result (target_at bytes.now) }
{
    match bytes {
        [b'P', rest @ ..] => Ok((true, rest)),
        [b'S', rest @ ..] => Ok((false, rest)),
        _ => Err(FieldFault::Malformed),
    }
}

#[tactic(auto, unfolding(crate::specs::Reading::field_at))]
pub fn field_of(alloc: Global, bytes: &[u8]) -> Result<(Field, &[u8]), FieldFault>
    ensures { Gives (λ x. (x.0, x.1.now)) result (field_at bytes.now) }
{
    let (name, rest) = string_of(alloc, bytes)?;
    let (table, rest) = u32_of(rest)?;
    let (column, rest) = i16_of(rest)?;
    let (kind, rest) = u32_of(rest)?;
    let (size, rest) = i16_of(rest)?;
    let (modifier, rest) = i32_of(rest)?;
    let (format, rest) = u16_of(rest)?;
    let field = Field {
        name,
        table,
        column,
        kind,
        size,
        modifier,
        format,
    };
    Ok((field, rest))
}

#[tactic(auto, unfolding(crate::specs::Reading::part_at))]
pub fn part_of(alloc: Global, bytes: &[u8]) -> Result<(Part, &[u8]), FieldFault>
    ensures { Gives (λ x. (x.0, x.1.now)) result (part_at bytes.now) }
{
    let [tag, rest @ ..] = bytes else {
        return Err(FieldFault::Malformed);
    };
    let (text, rest) = string_of(alloc, rest)?;
    Ok((Part { tag: *tag, text }, rest))
}

#[tactic(auto, unfolding(crate::specs::Reading::pair_at))]
pub fn pair_of(alloc: Global, bytes: &[u8]) -> Result<(Pair, &[u8]), FieldFault>
    ensures { Gives (λ x. (x.0, x.1.now)) result (pair_at bytes.now) }
{
    let (name, rest) = string_of(alloc, bytes)?;
    let (value, rest) = string_of(alloc, rest)?;
    Ok((Pair { name, value }, rest))
}

/// The message that was read, if nothing stands behind its last field.
pub fn whole_of<M: Drop>(message: M, rest: &[u8]) -> Result<M, FieldFault>
    ensures { Gives (λ m. m) result (whole (message, rest.now)) }
{
    match rest {
        [] => Ok(message),
        [_, ..] => Err(FieldFault::Malformed),
    }
}
