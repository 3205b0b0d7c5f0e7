//! Classes of bytes, and the longest run of a class at the front of a text.
ghost use Rattle.std.specs.Prelude.{◌≡◌};
ghost use Rattle.sql_tokens.specs.Bytes.{is_space, begins_name, is_strange, has, front, behind, begins_with, begins_digit, kind_of, kind_of_sign, kind_of_mark};

use crate::Mark;

/// The classes of bytes that run together.
#[derive(Clone, Copy)]
pub enum Class {
    /// In a name.
    Name,
    Digit,
    /// In a run of marks that are strange to the grammar.
    Strange,
    /// In a line.
    Line,
    /// Any byte but this one.
    But(u8),
}

/// What the first byte tells of what begins there.
#[derive(Clone, Copy)]
pub enum Kind {
    Letter,
    Space,
    Digit,
    Strange,
    Quote,
    DoubleQuote,
    Dollar,
    Dot,
    Minus,
    Slash,
    Less,
    Greater,
    /// A mark whatever follows it.
    Mark(Mark),
    /// No token begins so.
    Other,
}

fn is_space(byte: u8) -> bool
    ensures { result ≡ is_space byte }
{
    byte == b' ' || byte == b'\t' || byte == b'\n' || byte == b'\r'
}

fn begins_name(byte: u8) -> bool
    ensures { result ≡ begins_name byte }
{
    byte.is_ascii_alphabetic() || byte == b'_'
}

fn is_strange(byte: u8) -> bool
    ensures { result ≡ is_strange byte }
{
    byte == b':'
        || byte == b'~'
        || byte == b'!'
        || byte == b'@'
        || byte == b'#'
        || byte == b'^'
        || byte == b'&'
        || byte == b'|'
        || byte == b'?'
        || byte == b'['
        || byte == b']'
}

impl Class {
    fn has(self, byte: u8) -> bool
        ensures { result ≡ has self byte }
    {
        match self {
            Class::Name => begins_name(byte) || byte.is_ascii_digit(),
            Class::Digit => byte.is_ascii_digit(),
            Class::Strange => is_strange(byte),
            Class::Line => !(byte == b'\n' || byte == b'\r' || byte == 0),
            Class::But(other) => byte != other,
        }
    }
}

/// The kind of what begins with this byte.
pub(crate) fn kind_of(byte: u8) -> Kind
    ensures { result ≡ kind_of byte }
{
    if begins_name(byte) {
        Kind::Letter
    } else if is_space(byte) {
        Kind::Space
    } else if byte.is_ascii_digit() {
        Kind::Digit
    } else if is_strange(byte) {
        Kind::Strange
    } else {
        kind_of_sign(byte)
    }
}

fn kind_of_sign(byte: u8) -> Kind
    ensures { result ≡ kind_of_sign byte }
{
    if byte == b'\'' {
        Kind::Quote
    } else if byte == b'"' {
        Kind::DoubleQuote
    } else if byte == b'$' {
        Kind::Dollar
    } else if byte == b'.' {
        Kind::Dot
    } else if byte == b'-' {
        Kind::Minus
    } else if byte == b'/' {
        Kind::Slash
    } else if byte == b'<' {
        Kind::Less
    } else if byte == b'>' {
        Kind::Greater
    } else {
        kind_of_mark(byte)
    }
}

fn kind_of_mark(byte: u8) -> Kind
    ensures { result ≡ kind_of_mark byte }
{
    if byte == b'(' {
        Kind::Mark(Mark::Open)
    } else if byte == b')' {
        Kind::Mark(Mark::Close)
    } else if byte == b',' {
        Kind::Mark(Mark::Comma)
    } else if byte == b';' {
        Kind::Mark(Mark::Semicolon)
    } else if byte == b'*' {
        Kind::Mark(Mark::Star)
    } else if byte == b'%' {
        Kind::Mark(Mark::Percent)
    } else if byte == b'+' {
        Kind::Mark(Mark::Plus)
    } else if byte == b'=' {
        Kind::Mark(Mark::Equal)
    } else {
        Kind::Other
    }
}

/// What stands behind the first bytes of the class.
pub(crate) fn skip_run(class: Class, bytes: &[u8]) -> &[u8]
    ensures { result.now ≡ behind class bytes.now }
{
    let mut left = bytes;
    while let [first, rest @ ..] = left {
        if !class.has(*first) {
            return left;
        }
        left = rest;
    }
    left
}

/// The first bytes of the class, and what stands behind them.
pub(crate) fn split_run(class: Class, bytes: &[u8]) -> (&[u8], &[u8])
    ensures run { result.0.now ≡ front class bytes.now }
    ensures rest { result.1.now ≡ behind class bytes.now }
{
    let rest = skip_run(class, bytes);
    bytes.split_at(bytes.len() - rest.len())
}

/// The bytes begin with this one.
pub(crate) fn begins_with(byte: u8, bytes: &[u8]) -> bool
    ensures { result ≡ begins_with byte bytes.now }
{
    match bytes {
        [first, ..] => *first == byte,
        [] => false,
    }
}

/// The bytes begin with a digit.
pub(crate) fn begins_digit(bytes: &[u8]) -> bool
    ensures { result ≡ begins_digit bytes.now }
{
    match bytes {
        [first, ..] => first.is_ascii_digit(),
        [] => false,
    }
}
