//! The text of a file's bytes, and its lines.
ghost use Rattle.std.specs.Prelude.{◌≡◌, ◌==◌, ◌+◌, ◌++◌, ◌<◌, length, take, map, count_by, IfOk, OnOk, IsUtf8};
ghost use Rattle.schema.specs.Reading.{plain_byte, as_text, line_of};

use pool_base::{NoMemory, Text};
use std::alloc::{AllocError, Global};

/// The byte in a text of ASCII: itself, or zero.
fn plain_byte(byte: u8) -> u8
    ensures { result ≡ plain_byte byte }
{
    if byte < 128 { byte } else { 0 }
}

/// Puts behind the bytes, for each further one, itself or zero.
fn push_plain(onto: &mut Vec<u8>, rest: &[u8]) -> Result<(), AllocError>
    ensures { OnOk result (onto.new.items ≡ onto.old.items ++ map plain_byte rest.now) }
{
    for byte in rest {
        onto.push(plain_byte(*byte))?;
    }
    Ok(())
}

/// The text of bytes that are one.
fn valid_text(bytes: Vec<u8>) -> Text
    requires { IsUtf8 bytes.items }
    ensures { result ≡ bytes.items }
{
    match String::from_utf8(bytes) {
        Ok(text) => Text::from_string(text),
        Err(_) => unreachable!(),
    }
}

/// The text of a front that is one, and of what stands for the bytes behind it.
#[tactic(auto, using(crate::proofs::Texts::is_text))]
fn mended(alloc: Global, front: &[u8], rest: &[u8]) -> Result<Text, NoMemory>
    requires { IsUtf8 front.now }
    ensures { IfOk result (λ text. text ≡ front.now ++ map plain_byte rest.now) }
{
    let mut made = Vec::from_slice(alloc, front)?;
    push_plain(&mut made, rest)?;
    Ok(valid_text(made))
}

/// The text of the bytes. From the first on that is of no UTF-8, a zero byte stands for each byte
/// above 127.
#[tactic(auto, using(crate::proofs::Texts::whole, crate::proofs::Texts::same_length))]
pub(crate) fn as_text(alloc: Global, bytes: &[u8]) -> Result<Text, NoMemory>
    ensures text { IfOk result (λ text. text ≡ as_text bytes.now) }
    ensures len { IfOk result (λ text. length text ≡ length bytes.now) }
{
    match std::str::from_utf8(bytes) {
        Ok(text) => Ok(Text::from_str(alloc, text)?),
        Err(fault) => {
            let (front, rest) = bytes.split_at(fault.valid_up_to());
            mended(alloc, front, rest)
        }
    }
}

/// The line, from 1, of the byte at this place.
pub(crate) fn line_of(text: &[u8], place: usize) -> u32
    requires { length text.now < 4294967295 }
    ensures { result ≡ line_of text.now place }
{
    line_behind(front(text, place))
}

/// The bytes before this place.
fn front(text: &[u8], place: usize) -> &[u8]
    ensures { result.now ≡ take place text.now }
{
    if place < text.len() {
        text.split_at(place).0
    } else {
        text
    }
}

/// The line, from 1, of what stands behind these bytes.
fn line_behind(bytes: &[u8]) -> u32
    requires { length bytes.now < 4294967295 }
    ensures { result ≡ 1 + count_by (λ b. b == 10) bytes.now }
{
    let mut line: u32 = 1;
    for byte in bytes {
        if *byte == b'\n' {
            line += 1;
        }
    }
    line
}
