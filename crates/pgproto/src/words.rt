//! Readers of the words of a line: each takes its word off the front of the bytes.
ghost use Rattle.std.specs.Prelude.{◌≡◌, ◌<◌, ◌≤◌, ◌+◌, ◌*◌, ℕ, suc, min, length, true, false, IfOk, MatchOption};
ghost use Rattle.std.specs.Str.{is_utf8};
ghost use Rattle.pgproto.specs.Words.{is_digit, is_shown, hex_digit};
ghost use Rattle.pgproto.specs.Reading.{Gives, bytes_at, digits_at, escape_at, has_digit, hex_at, hex_byte, number_at, string_at, string_byte, word_at};

use crate::stop::Stop;
use pool_base::{List, Text};
use std::alloc::Global;

/// Most strings are no longer than this. There is room for them at once.
const STRING_SIZE: usize = 64;

/// Takes these bytes off the front.
pub(crate) fn word<'a>(word: &[u8], bytes: &'a [u8]) -> Result<&'a [u8], Stop>
    ensures gives { Gives (λ x. x.now) result (word_at word.now bytes.now) }
    ensures shorter { IfOk result (λ x. length x.now + length word.now ≡ length bytes.now) }
{
    match bytes.strip_prefix(word) {
        Some(rest) => Ok(rest),
        None => Err(Stop::NotALine),
    }
}

fn is_digit(byte: u8) -> bool
    ensures { result ≡ is_digit byte }
{
    48 <= byte && byte <= 57
}

fn is_shown(byte: u8) -> bool
    ensures { result ≡ is_shown byte }
{
    byte == 10 || (32 <= byte && byte != 127)
}

/// What a hexadecimal digit counts; 16 where it is none.
fn hex_digit(byte: u8) -> u8
    ensures is { result ≡ hex_digit byte }
    ensures small { result ≤ 16 }
{
    match byte {
        b'0'..=b'9' => byte - b'0',
        b'a'..=b'f' => byte - b'a' + 10,
        b'A'..=b'F' => byte - b'A' + 10,
        _ => 16,
    }
}

/// The byte that an escape stands for, and the bytes after it.
fn escape(bytes: &[u8]) -> Result<(Option<u8>, &[u8]), Stop>
    ensures gives { Gives (λ x. (x.0, x.1.now)) result (escape_at bytes.now) }
    ensures shorter { IfOk result (λ x. length x.1.now < length bytes.now) }
{
    match bytes {
        [byte, after @ ..] if *byte == b'"' || *byte == b'\\' => Ok((Some(*byte), after)),
        [b'n', after @ ..] => Ok((Some(b'\n'), after)),
        _ => Err(Stop::NotALine),
    }
}

/// The next byte of a string, and the bytes after it; None at its last quote.
fn string_byte(bytes: &[u8]) -> Result<(Option<u8>, &[u8]), Stop>
    ensures gives { Gives (λ x. (x.0, x.1.now)) result (string_byte bytes.now) }
    ensures shorter { IfOk result (λ x. length x.1.now < length bytes.now) }
{
    match bytes {
        [b'"', after @ ..] => Ok((None, after)),
        [b'\\', after @ ..] => escape(after),
        [byte, after @ ..] if is_shown(*byte) && *byte != b'\n' => Ok((Some(*byte), after)),
        _ => Err(Stop::NotALine),
    }
}

/// The next byte of hexadecimal digits, and the bytes after it; None at the last quote.
fn hex_byte(bytes: &[u8]) -> Result<(Option<u8>, &[u8]), Stop>
    ensures gives { Gives (λ x. (x.0, x.1.now)) result (hex_byte bytes.now) }
    ensures shorter { IfOk result (λ x. length x.1.now < length bytes.now) }
{
    match bytes {
        [b'"', after @ ..] => Ok((None, after)),
        [high, low, after @ ..] => {
            let (high, low) = (hex_digit(*high), hex_digit(*low));
            if high < 16 && low < 16 {
                Ok((Some(high * 16 + low), after))
            } else {
                Err(Stop::NotALine)
            }
        }
        _ => Err(Stop::NotALine),
    }
}

/// A number up to `most`, in decimal digits.
#[tactic(auto, unfolding(crate::specs::Reading::number_at), using(crate::proofs::Digits::digits_took))]
pub(crate) fn number(most: u32, bytes: &[u8]) -> Result<(u32, &[u8]), Stop>
    ensures gives { Gives (λ x. (x.0, x.1.now)) result (number_at most bytes.now) }
    ensures shorter { IfOk result (λ x. length x.1.now < length bytes.now) }
    ensures most { IfOk result (λ x. x.0 ≤ most) }
{
    if !has_digit(bytes) {
        return Err(Stop::NotALine);
    }
    let (number, rest) = digits(bytes);
    if number > u64::from(most) {
        return Err(Stop::NotALine);
    }
    Ok((number as u32, rest))
}

/// Whether a digit is in front.
fn has_digit(bytes: &[u8]) -> bool
    ensures { result ≡ has_digit bytes.now }
{
    matches!(bytes, [byte, ..] if is_digit(*byte))
}

/// More than any number of a script.
const TOO_MANY: u64 = 4_294_967_296;

/// The digits in front, and the bytes after them. A number above all others stands for each
/// greater.
fn digits(bytes: &[u8]) -> (u64, &[u8])
    ensures number { result.0 ≡ min 4294967296 (digits_at 0 bytes.now).0 }
    ensures rest { result.1.now ≡ (digits_at 0 bytes.now).1 }
{
    let mut number = 0;
    let mut rest = bytes;
    while let [byte, after @ ..] = rest {
        if !is_digit(*byte) {
            break;
        }
        number = TOO_MANY.min(number * 10 + u64::from(*byte - b'0'));
        rest = after;
    }
    (number, rest)
}

/// Byte after byte of a string behind its first quote, up to its last one.
fn string_bytes(alloc: Global, bytes: &[u8]) -> Result<(Vec<u8>, &[u8]), Stop>
    ensures gives { Gives
        (λ x. (x.0.items, x.1.now)) result (bytes_at string_byte (suc (length bytes.now))
        bytes.now) }
    ensures shorter { IfOk result (λ x. length x.1.now < length bytes.now) }
{
    let mut text = Vec::with_capacity(alloc, bytes.len().min(STRING_SIZE))?;
    let mut rest = bytes;
    loop {
        let (byte, after) = string_byte(rest)?;
        rest = after;
        match byte {
            Some(byte) => text.push(byte)?,
            None => return Ok((text, rest)),
        }
    }
}

/// Byte after byte of hexadecimal digits behind the first quote, up to the last one.
fn hex_bytes(alloc: Global, bytes: &[u8]) -> Result<(Vec<u8>, &[u8]), Stop>
    ensures gives { Gives
        (λ x. (x.0.items, x.1.now)) result (bytes_at hex_byte (suc (length bytes.now)) bytes.now) }
    ensures shorter { IfOk result (λ x. length x.1.now < length bytes.now) }
{
    let mut found = Vec::new(alloc);
    let mut rest = bytes;
    loop {
        let (byte, after) = hex_byte(rest)?;
        rest = after;
        match byte {
            Some(byte) => found.push(byte)?,
            None => return Ok((found, rest)),
        }
    }
}

/// The text of these bytes, where they are valid UTF-8.
fn text_of(bytes: Vec<u8>) -> Option<Text>
    ensures { MatchOption result (is_utf8 bytes.items ≡ false) (λ text. (text ≡ bytes.items)
        × (is_utf8 bytes.items ≡ true)) }
{
    match String::from_utf8(bytes) {
        Ok(text) => Some(Text::from_string(text)),
        Err(_) => None,
    }
}

/// A string in double quotes.
#[tactic(auto, unfolding(crate::specs::Reading::string_at))]
pub(crate) fn string(alloc: Global, bytes: &[u8]) -> Result<(Text, &[u8]), Stop>
    ensures gives { Gives (λ x. (x.0, x.1.now)) result (string_at bytes.now) }
    ensures shorter { IfOk result (λ x. length x.1.now < length bytes.now) }
{
    let inside = word(b"\"", bytes)?;
    let (text, rest) = string_bytes(alloc, inside)?;
    match text_of(text) {
        Some(text) => Ok((text, rest)),
        None => Err(Stop::NotALine),
    }
}

/// Hexadecimal digits in double quotes.
#[tactic(auto, unfolding(crate::specs::Reading::hex_at))]
pub(crate) fn hex(alloc: Global, bytes: &[u8]) -> Result<(List<u8>, &[u8]), Stop>
    ensures gives { Gives (λ x. (x.0, x.1.now)) result (hex_at bytes.now) }
    ensures shorter { IfOk result (λ x. length x.1.now < length bytes.now) }
{
    let inside = word(b"\"", bytes)?;
    let (found, rest) = hex_bytes(alloc, inside)?;
    Ok((List::from_vec(found), rest))
}
