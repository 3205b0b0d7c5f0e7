//! Readers of the parts of a line: numbers of sessions and backends, limits, values, lists.
ghost use Rattle.std.specs.Prelude.{◌≡◌, ◌≤◌, ◌<◌, ℕ, length, IfOk, codes, pos, neg_ℤ};
ghost use Rattle.pgproto.specs.Reading.{Gives, backend_at, counted_at, items_at, limit_at, number_at, session_at, spaced_at, string_at, value_at};

use crate::line::ScriptValue;
use crate::stop::Stop;
use crate::words::{hex, number, string, word};
use pool_base::{BackendId, List, SessionId, Text};
use std::alloc::Global;

#[tactic(auto, unfolding(crate::specs::Reading::session_at))]
pub(crate) fn session(bytes: &[u8]) -> Result<(SessionId, &[u8]), Stop>
    ensures { Gives (λ x. (x.0.number, x.1.now)) result (session_at bytes.now) }
{
    let (number, rest) = number(64, bytes)?;
    match SessionId::from_number(number) {
        Some(s) => Ok((s, rest)),
        None => Err(Stop::NotALine),
    }
}

pub(crate) fn backend(bytes: &[u8]) -> Result<(BackendId, &[u8]), Stop>
    ensures { Gives (λ x. (x.0.number, x.1.now)) result (backend_at bytes.now) }
{
    let (number, rest) = number(7, bytes)?;
    Ok((
        BackendId {
            number: number as u8,
        },
        rest,
    ))
}

#[tactic(auto, unfolding(crate::specs::Reading::limit_at))]
pub(crate) fn limit(bytes: &[u8]) -> Result<(i32, &[u8]), Stop>
    ensures { Gives (λ x. (x.0, x.1.now)) result (limit_at bytes.now) }
{
    if let [b'-', ..] = bytes {
        let after = word(b"-", bytes)?;
        let (number, rest) = number(2_147_483_648, after)?;
        return Ok((negative(number), rest));
    }
    let (number, rest) = number(2_147_483_647, bytes)?;
    Ok((number as i32, rest))
}

fn negative(number: u32) -> i32
    requires { number ≤ 2147483648 }
    ensures { result ≡ neg_ℤ (pos number) }
{
    (-i64::from(number)) as i32
}

#[tactic(auto, unfolding(crate::specs::Reading::value_at))]
pub(crate) fn value(alloc: Global, bytes: &[u8]) -> Result<(ScriptValue, &[u8]), Stop>
    ensures { Gives (λ x. (x.0, x.1.now)) result (value_at bytes.now) }
{
    match bytes {
        [b'"', ..] => {
            let (text, rest) = string(alloc, bytes)?;
            Ok((ScriptValue::Str(text), rest))
        }
        [b'x', ..] => {
            let after = word(b"x", bytes)?;
            let (found, rest) = hex(alloc, after)?;
            Ok((ScriptValue::Hex(found), rest))
        }
        _ => {
            let rest = word(b"null", bytes)?;
            Ok((ScriptValue::Null, rest))
        }
    }
}

#[tactic(auto, unfolding(crate::specs::Reading::spaced_at))]
pub(crate) fn spaced_string(alloc: Global, bytes: &[u8]) -> Result<(Text, &[u8]), Stop>
    ensures { Gives (λ x. (x.0, x.1.now)) result (spaced_at string_at bytes.now) }
{
    let after = word(b" ", bytes)?;
    string(alloc, after)
}

#[tactic(auto, unfolding(crate::specs::Reading::spaced_at))]
pub(crate) fn spaced_number(most: u32, bytes: &[u8]) -> Result<(u32, &[u8]), Stop>
    ensures gives { Gives (λ x. (x.0, x.1.now)) result (spaced_at (number_at most) bytes.now) }
    ensures most { IfOk result (λ x. x.0 ≤ most) }
{
    let after = word(b" ", bytes)?;
    number(most, after)
}

#[tactic(auto, unfolding(crate::specs::Reading::spaced_at))]
pub(crate) fn spaced_value(alloc: Global, bytes: &[u8]) -> Result<(ScriptValue, &[u8]), Stop>
    ensures { Gives (λ x. (x.0, x.1.now)) result (spaced_at value_at bytes.now) }
{
    let after = word(b" ", bytes)?;
    value(alloc, after)
}
