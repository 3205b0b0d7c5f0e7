//! Tests of what may stand in a message.
ghost use Rattle.std.specs.Prelude.{◌≡◌, ◌↔◌, IsTrue};
ghost use Rattle.scram.specs.Words.{IsPrintable, IsNonce, IsPassword, IsEscape, IsNameByte, AreNameBytes, IsName};

use std::str;

/// Whether a byte is printable and no comma.
fn is_printable(byte: u8) -> bool
    ensures { IsTrue result ↔ IsPrintable byte }
{
    matches!(byte, b'!'..=b'+' | b'-'..=b'~')
}

/// Whether this may be a nonce: one printable byte or more, and no comma.
///
/// Source: RFC 5802, "Formal Syntax", `printable`.
pub fn is_nonce(nonce: &[u8]) -> bool
    ensures { IsTrue result ↔ IsNonce nonce.now }
{
    !nonce.is_empty() && nonce.iter().all(|byte| is_printable(*byte))
}

/// Whether a password is taken: bytes 32 to 126, which SASLprep leaves as they are.
pub fn is_password(password: &[u8]) -> bool
    ensures { IsTrue result ↔ IsPassword password.now }
{
    password.iter().all(|byte| matches!(*byte, b' '..=b'~'))
}

/// Whether `2C` or `3D` is in front.
fn is_escape(rest: &[u8]) -> bool
    ensures { IsTrue result ↔ IsEscape rest.now }
{
    matches!(rest, [b'2', b'C', ..] | [b'3', b'D', ..])
}

/// Whether a byte may stand in a name, by what stands behind it.
fn is_name_byte(byte: u8, rest: &[u8]) -> bool
    ensures { IsTrue result ↔ IsNameByte byte rest.now }
{
    byte != 0 && byte != b',' && (byte != b'=' || is_escape(rest))
}

fn are_name_bytes(name: &[u8]) -> bool
    ensures { IsTrue result ↔ AreNameBytes name.now }
{
    let mut left = name;
    while let [byte, rest @ ..] = left {
        if !is_name_byte(*byte, rest) {
            return false;
        }
        left = rest;
    }
    true
}

/// Whether this may be the name of a user: UTF-8 with no NUL and no comma, and `=` only in `=2C`
/// and `=3D`. It may be empty.
///
/// Source: RFC 5802, "Formal Syntax", `saslname`.
pub fn is_name(name: &[u8]) -> bool
    ensures { IsTrue result ↔ IsName name.now }
{
    match str::from_utf8(name) {
        Ok(_) => are_name_bytes(name),
        Err(_) => false,
    }
}
