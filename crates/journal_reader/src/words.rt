//! Readers of the words of a line: each takes its word off the front of the bytes.
ghost use Rattle.std.specs.Prelude.{◌<◌, ◌≤◌, IfSome, length};

use crate::fault::LineFault;
use pool_base::{BackendId, Code, SessionId, Text};
use std::alloc::Global;

/// Takes these bytes off the front.
pub(crate) fn word<'a>(word: &[u8], bytes: &'a [u8]) -> Result<&'a [u8], LineFault> {
    match bytes.strip_prefix(word) {
        Some(rest) => Ok(rest),
        None => Err(LineFault::BadLine),
    }
}

/// Whether these bytes stand at the front.
pub(crate) fn is_before(word: &[u8], bytes: &[u8]) -> bool {
    bytes.starts_with(word)
}

/// What a digit counts.
fn digit_of(byte: u8) -> Option<u8>
    ensures { IfSome result (λ n. n < 10) }
{
    match byte {
        b'0'..=b'9' => Some(byte - b'0'),
        _ => None,
    }
}

/// What a hexadecimal digit counts.
fn hex_of(byte: u8) -> Option<u8>
    ensures { IfSome result (λ n. n < 16) }
{
    match byte {
        b'0'..=b'9' => Some(byte - b'0'),
        b'a'..=b'f' => Some(byte - b'a' + 10),
        _ => None,
    }
}

/// A number with one more digit, where 64 bits hold it.
fn with_digit(n: u64, digit: u8) -> Option<u64> {
    match n.checked_mul(10) {
        Some(tens) => tens.checked_add(u64::from(digit)),
        None => None,
    }
}

/// How many digits are in front.
fn digit_count(bytes: &[u8]) -> usize
    ensures { result ≤ length bytes.now }
{
    for n in 0..bytes.len() {
        if digit_of(bytes[n]).is_none() {
            return n;
        }
    }
    bytes.len()
}

/// The number of these digits.
fn number_of(digits: &[u8]) -> Option<u64> {
    let mut n = 0;
    for byte in digits {
        let digit = digit_of(*byte)?;
        n = with_digit(n, digit)?;
    }
    Some(n)
}

/// A number, in decimal digits.
pub(crate) fn number(bytes: &[u8]) -> Result<(u64, &[u8]), LineFault> {
    let (digits, rest) = bytes.split_at(digit_count(bytes));
    match number_of(digits) {
        Some(n) => Ok((n, rest)),
        None => Err(LineFault::BadLine),
    }
}

/// The number below 0 that is so far from it.
fn negated(n: u64) -> Option<i64> {
    0_i64.checked_sub_unsigned(n)
}

/// A number with a minus sign in front where it is below 0.
pub(crate) fn signed(bytes: &[u8]) -> Result<(i64, &[u8]), LineFault> {
    if is_before(b"-", bytes) {
        let (n, rest) = number(word(b"-", bytes)?)?;
        return match negated(n) {
            Some(n) => Ok((n, rest)),
            None => Err(LineFault::BadLine),
        };
    }
    let (n, rest) = number(bytes)?;
    match i64::try_from(n) {
        Ok(n) => Ok((n, rest)),
        Err(_) => Err(LineFault::BadLine),
    }
}

/// A session.
pub(crate) fn session(bytes: &[u8]) -> Result<(SessionId, &[u8]), LineFault> {
    let (n, rest) = number(bytes)?;
    match session_of(n) {
        Some(s) => Ok((s, rest)),
        None => Err(LineFault::BadLine),
    }
}

fn session_of(n: u64) -> Option<SessionId> {
    match u32::try_from(n) {
        Ok(n) => SessionId::from_number(n),
        Err(_) => None,
    }
}

/// A backend.
pub(crate) fn backend(bytes: &[u8]) -> Result<(BackendId, &[u8]), LineFault> {
    let (n, rest) = number(bytes)?;
    match backend_of(n) {
        Some(b) => Ok((b, rest)),
        None => Err(LineFault::BadLine),
    }
}

fn backend_of(n: u64) -> Option<BackendId> {
    match u8::try_from(n) {
        Ok(n) => BackendId::from_number(n),
        Err(_) => None,
    }
}

/// A code.
pub(crate) fn code(bytes: &[u8]) -> Result<(Code, &[u8]), LineFault> {
    let [a, b, c, d, e, rest @ ..] = bytes else {
        return Err(LineFault::BadLine);
    };
    match Code::from_bytes([*a, *b, *c, *d, *e]) {
        Some(code) => Ok((code, rest)),
        None => Err(LineFault::BadLine),
    }
}

/// The byte of two hexadecimal digits, and the bytes after them.
fn hex_byte(bytes: &[u8]) -> Option<(u8, &[u8])> {
    let [high, low, rest @ ..] = bytes else {
        return None;
    };
    let high = hex_of(*high)?;
    let low = hex_of(*low)?;
    Some((high * 16 + low, rest))
}

/// The byte that is shown behind a backslash, and the bytes after it.
fn escaped(bytes: &[u8]) -> Option<(u8, &[u8])> {
    match bytes {
        [b'x', rest @ ..] => hex_byte(rest),
        [byte, rest @ ..] => Some((*byte, rest)),
        [] => None,
    }
}

/// The byte that is shown in front, and the bytes after it.
fn shown(bytes: &[u8]) -> Option<(u8, &[u8])> {
    match bytes {
        [b'\\', rest @ ..] => escaped(rest),
        [byte, rest @ ..] => Some((*byte, rest)),
        [] => None,
    }
}

/// Whether the last quote is in front.
fn is_last_quote(bytes: &[u8]) -> bool {
    matches!(bytes, [b'"', ..])
}

/// The bytes that are shown behind the first quote, up to the last one, and the bytes from there.
fn shown_bytes(alloc: Global, bytes: &[u8]) -> Result<(Vec<u8>, &[u8]), LineFault> {
    let mut found = Vec::new(alloc);
    let mut rest = bytes;
    for _ in 0..bytes.len() {
        if is_last_quote(rest) {
            break;
        }
        let Some((byte, after)) = shown(rest) else {
            return Err(LineFault::BadLine);
        };
        found.push(byte)?;
        rest = after;
    }
    Ok((found, rest))
}

/// The text of these bytes.
fn text_of(bytes: Vec<u8>) -> Option<Text> {
    match String::from_utf8(bytes) {
        Ok(text) => Some(Text::from_string(text)),
        Err(_) => None,
    }
}

/// A text in quotes.
pub(crate) fn text(alloc: Global, bytes: &[u8]) -> Result<(Text, &[u8]), LineFault> {
    let (found, rest) = shown_bytes(alloc, word(b"\"", bytes)?)?;
    let rest = word(b"\"", rest)?;
    match text_of(found) {
        Some(text) => Ok((text, rest)),
        None => Err(LineFault::BadLine),
    }
}
