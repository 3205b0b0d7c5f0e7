//! Pieces of lines, put behind bytes: numbers, hexadecimal digits, and the text of bytes.
ghost use Rattle.std.specs.Prelude.{◌≡◌, ◌++◌, ◌∷◌, ◌<◌, OnOk, [], List, IsUtf8, flat_map};
ghost use Rattle.std.specs.Fmt.{decimal, signed_decimal};
ghost use Rattle.pgproto.specs.Spelling.{digit, hexed, two_digits};

use pool_base::{List, NoMemory, Text};
use std::alloc::Global;

/// The text of bytes that are valid UTF-8.
pub(crate) fn text(bytes: List<u8>) -> Text
    requires { IsUtf8 bytes }
    ensures { result ≡ bytes }
{
    match String::from_utf8(bytes.into_vec()) {
        Ok(text) => Text::from_string(text),
        Err(_) => unreachable!(),
    }
}

pub(crate) fn push_number(alloc: Global, n: u64, onto: &mut List<u8>) -> Result<(), NoMemory>
    ensures { OnOk result (onto.new ≡ onto.old ++ decimal n) }
{
    let text = format!(in alloc; "{n}")?;
    onto.extend_from_slice(text.as_bytes())
}

pub(crate) fn push_signed(alloc: Global, n: i32, onto: &mut List<u8>) -> Result<(), NoMemory>
    ensures { OnOk result (onto.new ≡ onto.old ++ signed_decimal n) }
{
    let text = format!(in alloc; "{n}")?;
    onto.extend_from_slice(text.as_bytes())
}

/// A hexadecimal digit in lower case.
fn digit(n: u8) -> u8
    requires { n < 16 }
    ensures { result ≡ digit n }
{
    if n < 10 { b'0' + n } else { b'a' + (n - 10) }
}

pub(crate) fn push_two_digits(byte: u8, onto: &mut List<u8>) -> Result<(), NoMemory>
    ensures { OnOk result (onto.new ≡ onto.old ++ two_digits byte) }
{
    onto.extend_from_slice(&[digit(byte / 16), digit(byte % 16)])
}

/// Bytes as digits in double quotes.
pub(crate) fn push_hex(bytes: &[u8], onto: &mut List<u8>) -> Result<(), NoMemory>
    ensures { OnOk result (onto.new ≡ onto.old ++ hexed bytes.now) }
{
    onto.push(b'"')?;
    for byte in bytes {
        push_two_digits(*byte, onto)?;
    }
    onto.push(b'"')
}
