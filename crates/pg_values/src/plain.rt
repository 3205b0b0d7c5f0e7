//! Texts that a value may hold.
ghost use Rattle.std.specs.Prelude.{◌≡◌, ◌≢◌, ◌↔◌, IsTrue, All, MatchOption};
ghost use Rattle.pg_values.specs.Range.{HasNoZero};
ghost use Rattle.pg_values.specs.Answers.{IsPlain};

use std::str;

fn has_no_zero(bytes: &[u8]) -> bool
    ensures { IsTrue result ↔ HasNoZero bytes.now }
{
    bytes.iter().all(|byte| *byte != 0)
}

/// The text of the bytes, if they are UTF-8 without a zero byte.
pub fn plain(bytes: &[u8]) -> Option<&str>
    ensures { MatchOption result (¬ (IsPlain bytes.now))
        (λ text. (text.now ≡ bytes.now) × IsPlain bytes.now) }
{
    if !has_no_zero(bytes) {
        return None;
    }
    match str::from_utf8(bytes) {
        Ok(text) => Some(text),
        Err(_) => None,
    }
}
