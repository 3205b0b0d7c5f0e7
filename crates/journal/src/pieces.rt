//! The small parts of a line: words, numbers, sets of backends, texts in quotes.
ghost use Rattle.std.specs.Prelude.{◌≡◌, ◌<◌, ◌++◌, ◌∷◌, [], OnOk, string_bytes};
ghost use Rattle.std.specs.Fmt.{decimal, signed_decimal};
ghost use Rattle.pool_base.specs.Sets.{size};
ghost use Rattle.pgproto.specs.Rendering.{in_quotes, shown, shown_byte};
ghost use Rattle.pgproto.specs.Spelling.{digit, two_digits};
ghost use Rattle.journal.specs.Parts.{member, spelled_place, spelled_set};

use pool_base::{BackendId, BackendSet, Code, NoMemory, SessionId};
use std::fmt::Write;

pub(crate) fn push_word(word: &str, onto: &mut String) -> Result<(), NoMemory>
    ensures { OnOk result (string_bytes onto.new ≡ string_bytes onto.old ++ word.now) }
{
    onto.push_str(word)?;
    Ok(())
}

pub(crate) fn push_number(n: u64, onto: &mut String) -> Result<(), NoMemory>
    ensures { OnOk result (string_bytes onto.new ≡ string_bytes onto.old ++ decimal n) }
{
    write!(onto, "{n}")?;
    Ok(())
}

pub(crate) fn push_signed(n: i64, onto: &mut String) -> Result<(), NoMemory>
    ensures { OnOk result (string_bytes onto.new ≡ string_bytes onto.old ++ signed_decimal n) }
{
    write!(onto, "{n}")?;
    Ok(())
}

/// A word and a number behind it.
pub(crate) fn push_counted(word: &str, n: u64, onto: &mut String) -> Result<(), NoMemory>
    ensures { OnOk result (string_bytes onto.new
        ≡ string_bytes onto.old ++ (word.now ++ decimal n)) }
{
    push_word(word, onto)?;
    push_number(n, onto)
}

/// A word and a number behind it.
pub(crate) fn push_typed(word: &str, n: i64, onto: &mut String) -> Result<(), NoMemory>
    ensures { OnOk result (string_bytes onto.new
        ≡ string_bytes onto.old ++ (word.now ++ signed_decimal n)) }
{
    push_word(word, onto)?;
    push_signed(n, onto)
}

/// A word, and a session and a backend behind it.
pub(crate) fn push_placed(
    word: &str,
    s: SessionId,
    b: BackendId,
    onto: &mut String,
) -> Result<(), NoMemory>
    ensures { OnOk result (string_bytes onto.new
        ≡ string_bytes onto.old ++ (word.now ++ spelled_place s b)) }
{
    push_counted(word, u64::from(s.number), onto)?;
    push_counted(" ", u64::from(b.number), onto)
}

/// A word and a code behind it.
pub(crate) fn push_coded(word: &str, code: Code, onto: &mut String) -> Result<(), NoMemory>
    ensures { OnOk result (string_bytes onto.new
        ≡ string_bytes onto.old ++ (word.now ++ shown code.bytes)) }
{
    push_word(word, onto)?;
    push_shown(&code.bytes, onto)
}

/// A word, a code, and a name in quotes.
pub(crate) fn push_refusal(
    word: &str,
    code: Code,
    name: &[u8],
    onto: &mut String,
) -> Result<(), NoMemory>
    ensures { OnOk result (string_bytes onto.new
        ≡ string_bytes onto.old ++ (word.now ++ (shown code.bytes ++ (32 ∷ in_quotes name.now)))) }
{
    push_coded(word, code, onto)?;
    push_word(" ", onto)?;
    push_quoted(name, onto)
}

/// A backend behind a space, if it is in the set.
fn push_member(set: BackendSet, number: u8, onto: &mut String) -> Result<(), NoMemory>
    requires { number < 8 }
    ensures { OnOk result (string_bytes onto.new
        ≡ string_bytes onto.old ++ member set.bits number) }
{
    let Some(b) = BackendId::from_number(number) else {
        return Ok(());
    };
    if !set.has(b) {
        return Ok(());
    }
    push_counted(" ", u64::from(number), onto)
}

/// The backends of a set in rising order, each behind a space.
#[tactic(auto, unfolding(crate::specs::Parts::members_below))]
pub(crate) fn push_set(set: BackendSet, onto: &mut String) -> Result<(), NoMemory>
    ensures { OnOk result (string_bytes onto.new ≡ string_bytes onto.old ++ spelled_set set) }
{
    for number in 0..8 {
        push_member(set, number, onto)?;
    }
    Ok(())
}

/// How many backends a set has.
pub(crate) fn size_of(set: BackendSet) -> u8
    ensures { result ≡ size set.bits }
{
    let bits = set.bits;
    let low = bits % 2 + bits / 2 % 2 + bits / 4 % 2 + bits / 8 % 2;
    low + bits / 16 % 2 + bits / 32 % 2 + bits / 64 % 2 + bits / 128 % 2
}

/// Bytes as they are shown, in double quotes.
pub(crate) fn push_quoted(text: &[u8], onto: &mut String) -> Result<(), NoMemory>
    ensures { OnOk result (string_bytes onto.new ≡ string_bytes onto.old ++ in_quotes text.now) }
{
    push_word("\"", onto)?;
    push_shown(text, onto)?;
    push_word("\"", onto)
}

/// Bytes as a transcript shows them.
pub(crate) fn push_shown(text: &[u8], onto: &mut String) -> Result<(), NoMemory>
    ensures { OnOk result (string_bytes onto.new ≡ string_bytes onto.old ++ shown text.now) }
{
    for byte in text {
        push_shown_byte(*byte, onto)?;
    }
    Ok(())
}

fn push_shown_byte(byte: u8, onto: &mut String) -> Result<(), NoMemory>
    ensures { OnOk result (string_bytes onto.new ≡ string_bytes onto.old ++ shown_byte byte) }
{
    if byte < 32 || 126 < byte {
        push_word("\\x", onto)?;
        push_two_digits(byte, onto)
    } else if byte == b'"' || byte == b'\\' {
        push_word("\\", onto)?;
        push_ascii(byte, onto)
    } else {
        push_ascii(byte, onto)
    }
}

fn push_two_digits(byte: u8, onto: &mut String) -> Result<(), NoMemory>
    ensures { OnOk result (string_bytes onto.new ≡ string_bytes onto.old ++ two_digits byte) }
{
    push_ascii(digit(byte / 16), onto)?;
    push_ascii(digit(byte % 16), onto)
}

fn push_ascii(byte: u8, onto: &mut String) -> Result<(), NoMemory>
    requires { byte < 128 }
    ensures { OnOk result (string_bytes onto.new ≡ string_bytes onto.old ++ byte ∷ []) }
{
    onto.push(char::from(byte))?;
    Ok(())
}

/// A hexadecimal digit in lower case.
fn digit(n: u8) -> u8
    requires { n < 16 }
    ensures is { result ≡ digit n }
    ensures ascii { result < 128 }
{
    if n < 10 { b'0' + n } else { b'a' + (n - 10) }
}
