//! Reads bools and whole numbers from their text forms.
ghost use Rattle.std.specs.Prelude.{◌≡◌, Bool, option_map, map, MatchOption, SomeIff, FitsSigned};
ghost use Rattle.std.specs.Int.{w64};
ghost use Rattle.std.specs.Char.{to_ascii_lowercase};
ghost use Rattle.pg_values.specs.Text.{IsTruthWord, IsBoolText, signed};
ghost use Rattle.pg_values.specs.Reading.{digits_at, signed_digits_at, sign_at};
ghost use Rattle.pg_values.specs.Whole.{IsWholeRead};

use crate::digits::{after_spaces, digits, number, word};

/// Whether there is a minus at the front, and the bytes after the sign.
fn sign(text: &[u8]) -> (bool, &[u8])
    ensures negative { result.0 ≡ (sign_at text.now).0 }
    ensures rest { result.1.now ≡ (sign_at text.now).1 }
{
    match text {
        [b'-', rest @ ..] => (true, rest),
        [b'+', rest @ ..] => (false, rest),
        _ => (false, text),
    }
}

/// The digits at the front, where there are some and only spaces follow.
#[tactic(auto, unfolding(crate::specs::Reading::digits_at))]
fn last_digits(text: &[u8]) -> Option<&[u8]>
    ensures { option_map (λ x. x.now) result ≡ digits_at text.now }
{
    let (front, rest) = digits(text);
    if front.is_empty() || !after_spaces(rest).is_empty() {
        return None;
    }
    Some(front)
}

/// Whether there is a minus, and the digits of a whole number, if the text is of its grammar.
#[tactic(auto, unfolding(crate::specs::Reading::signed_digits_at))]
fn signed_digits(text: &[u8]) -> Option<(bool, &[u8])>
    ensures { option_map (λ x. (x.0, x.1.now)) result ≡ signed_digits_at text.now }
{
    let (negative, rest) = sign(after_spaces(text));
    let digits = last_digits(rest)?;
    Some((negative, digits))
}

/// The truth that a word stands for, in any case.
fn truth_of_word(word: &[u8]) -> Option<bool>
    ensures { MatchOption result
        ((truth : Bool) → ¬ (IsTruthWord truth (map to_ascii_lowercase word.now)))
        (λ truth. IsTruthWord truth (map to_ascii_lowercase word.now)) }
{
    if word.eq_ignore_ascii_case(b"t")
        || word.eq_ignore_ascii_case(b"true")
        || word.eq_ignore_ascii_case(b"yes")
        || word.eq_ignore_ascii_case(b"on")
        || word.eq_ignore_ascii_case(b"1")
    {
        return Some(true);
    }
    if word.eq_ignore_ascii_case(b"f")
        || word.eq_ignore_ascii_case(b"false")
        || word.eq_ignore_ascii_case(b"no")
        || word.eq_ignore_ascii_case(b"off")
        || word.eq_ignore_ascii_case(b"0")
    {
        return Some(false);
    }
    None
}

/// The truth of a text, if it is of the grammar of bools.
pub fn truth(text: &[u8]) -> Option<bool>
    ensures { MatchOption result ((truth : Bool) → ¬ (IsBoolText text.now truth))
        (λ truth. IsBoolText text.now truth) }
{
    let (word, rest) = word(after_spaces(text));
    if !after_spaces(rest).is_empty() {
        return None;
    }
    truth_of_word(word)
}

/// What a text is as a whole number.
pub enum Whole {
    /// It is not of the grammar.
    Misspelled,
    /// It is no int8.
    TooLarge,
    Fits(i64),
}

/// The number with this sign, if it is an int8.
fn with_sign(negative: bool, magnitude: u64) -> Option<i64>
    ensures { SomeIff result (FitsSigned w64 (signed negative magnitude))
        (signed negative magnitude) }
{
    if negative {
        0i64.checked_sub_unsigned(magnitude)
    } else {
        0i64.checked_add_unsigned(magnitude)
    }
}

/// Reads a whole number.
pub fn whole_number(text: &[u8]) -> Whole
    ensures { IsWholeRead text.now result }
{
    match signed_digits(text) {
        None => Whole::Misspelled,
        Some((negative, digits)) => match with_sign(negative, number(digits)) {
            Some(number) => Whole::Fits(number),
            None => Whole::TooLarge,
        },
    }
}
