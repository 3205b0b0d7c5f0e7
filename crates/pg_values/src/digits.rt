//! Runs of bytes at the front of a text, and decimal digits.
ghost use Rattle.std.specs.Prelude.{◌≡◌, ◌≤◌, ◌<◌, ◌-◌, ◌^◌, ◌++◌, min, length, true, option_map, OnOk};
ghost use Rattle.pg_values.specs.Digits.{are_digits, number_of, fixed, shortest};
ghost use Rattle.pg_values.specs.Reading.{fixed_at, digits_front, digits_rest, after_spaces, word_front, word_rest};

use std::alloc::AllocError;

/// The bytes after the spaces at the front of a text.
pub fn after_spaces(text: &[u8]) -> &[u8]
    ensures { result.now ≡ after_spaces text.now }
{
    let mut rest = text;
    while let [b' ', after @ ..] = rest {
        rest = after;
    }
    rest
}

/// The bytes after the digits at the front of a text.
fn after_digits(text: &[u8]) -> &[u8]
    ensures rest { result.now ≡ digits_rest text.now }
    ensures within { length result.now ≤ length text.now }
{
    let mut rest = text;
    while let [b'0'..=b'9', after @ ..] = rest {
        rest = after;
    }
    rest
}

/// The digits at the front of a text, and the bytes after them.
#[tactic(auto, using(crate::proofs::Runs::digits_front_is))]
pub fn digits(text: &[u8]) -> (&[u8], &[u8])
    ensures front { result.0.now ≡ digits_front text.now }
    ensures rest { result.1.now ≡ digits_rest text.now }
{
    let rest = after_digits(text);
    (&text[..text.len() - rest.len()], rest)
}

/// The bytes of a text from its first space on.
fn after_word(text: &[u8]) -> &[u8]
    ensures rest { result.now ≡ word_rest text.now }
    ensures within { length result.now ≤ length text.now }
{
    let mut rest = text;
    while let [byte, after @ ..] = rest {
        if *byte == b' ' {
            break;
        }
        rest = after;
    }
    rest
}

/// The bytes before the first space of a text, and those from it on.
#[tactic(auto, using(crate::proofs::Runs::word_front_is))]
pub fn word(text: &[u8]) -> (&[u8], &[u8])
    ensures front { result.0.now ≡ word_front text.now }
    ensures rest { result.1.now ≡ word_rest text.now }
{
    let rest = after_word(text);
    (&text[..text.len() - rest.len()], rest)
}

/// The number that digits stand for, or `u64::MAX` where it is larger.
pub fn number(digits: &[u8]) -> u64
    requires { are_digits digits.now ≡ true }
    ensures { result ≡ min (number_of digits.now) (2 ^ 64 - 1) }
{
    let mut number: u64 = 0;
    for digit in digits {
        let value = *digit - b'0';
        number = number.saturating_mul(10).saturating_add(value as u64);
    }
    number
}

/// The number of a few digits.
pub fn small_number(digits: &[u8]) -> u32
    requires digits { are_digits digits.now ≡ true }
    requires few { length digits.now ≤ 6 }
    ensures value { result ≡ number_of digits.now }
    ensures below { result < 1_000_000 }
{
    let mut number: u32 = 0;
    for digit in digits {
        number = number * 10 + (*digit - b'0') as u32;
    }
    number
}

/// Whether all bytes are digits.
fn are_digits(text: &[u8]) -> bool
    ensures { result ≡ are_digits text.now }
{
    text.iter().all(|b| b.is_ascii_digit())
}

/// The first so many bytes of a text, a number where they are digits, and the bytes after them.
#[tactic(auto, unfolding(crate::specs::Reading::fixed_at), using(crate::proofs::DigitLemmas::length_front))]
pub fn fixed(width: usize, text: &[u8]) -> Option<(u32, &[u8])>
    requires { width ≤ 6 }
    ensures { option_map (λ x. (x.0, x.1.now)) result ≡ fixed_at width text.now }
{
    if text.len() < width {
        return None;
    }
    let (front, rest) = text.split_at(width);
    if !are_digits(front) {
        return None;
    }
    Some((small_number(front), rest))
}

/// Puts the last so many digits of a number behind the bytes.
pub fn put_fixed(out: &mut Vec<u8>, width: u32, number: u32) -> Result<(), AllocError>
    requires width { width ≤ 6 }
    requires number { number < 10 ^ width }
    ensures { OnOk result (out.new.items ≡ out.old.items ++ fixed width number) }
{
    if width == 0 {
        return Ok(());
    }
    let weight = 10u32.pow(width - 1);
    out.push(b'0' + (number / weight) as u8)?;
    put_fixed(out, width - 1, number % weight)
}

/// Puts the last so many digits of a number behind the bytes, up to the last that is not 0.
pub fn put_shortest(out: &mut Vec<u8>, width: u32, number: u32) -> Result<(), AllocError>
    requires width { width ≤ 6 }
    requires number { number < 10 ^ width }
    ensures { OnOk result (out.new.items ≡ out.old.items ++ shortest width number) }
{
    if width == 0 || number == 0 {
        return Ok(());
    }
    let weight = 10u32.pow(width - 1);
    out.push(b'0' + (number / weight) as u8)?;
    put_shortest(out, width - 1, number % weight)
}
