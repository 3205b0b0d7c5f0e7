//! Bytes that are spelled in a line.
use crate::told::Told;
use pool_base::{List, NoMemory};
use std::alloc::Global;

/// The digit of that letter, in hexadecimal.
fn digit_of(letter: u8) -> Option<u8> {
    match letter {
        b'0'..=b'9' => Some(letter - b'0'),
        b'a'..=b'f' => Some(letter - b'a' + 10),
        _ => None,
    }
}

/// The byte of two digits.
fn byte_of(high: u8, low: u8) -> Option<u8> {
    let high = digit_of(high)?;
    let low = digit_of(low)?;
    Some(high.wrapping_mul(16).wrapping_add(low))
}

/// The byte of a letter behind a backslash.
fn escaped(letter: u8) -> u8 {
    match letter {
        b'n' => b'\n',
        b't' => b'\t',
        b'r' => b'\r',
        _ => letter,
    }
}

/// The first byte that is spelled, and the rest.
fn first_of(text: &[u8]) -> Option<(u8, &[u8])> {
    match text {
        [] => None,
        [b'\\', b'x', high, low, rest @ ..] => match byte_of(*high, *low) {
            Some(byte) => Some((byte, rest)),
            None => None,
        },
        [b'\\', letter, rest @ ..] => Some((escaped(*letter), rest)),
        [byte, rest @ ..] => Some((*byte, rest)),
    }
}

/// The bytes that a text spells: `\n`, `\t`, `\r`, `\xNN`, a backslash before a byte that stands
/// for itself, and every other byte itself. It ends before an `\x` without two digits.
pub fn bytes_of(alloc: Global, text: &str) -> Result<List<u8>, NoMemory> {
    let mut bytes = List::new(alloc);
    let mut rest = text.as_bytes();
    for _ in 0..text.len() {
        let Some((byte, after)) = first_of(rest) else {
            return Ok(bytes);
        };
        bytes.push(byte)?;
        rest = after;
    }
    Ok(bytes)
}

/// Puts the text that a text spells, by the same rules; nothing where its bytes are no text.
pub fn put_spelled(alloc: Global, text: &str, onto: &mut Told) {
    if let Ok(bytes) = bytes_of(alloc, text)
        && let Ok(text) = std::str::from_utf8(bytes.as_slice())
    {
        onto.put(text);
    }
}
