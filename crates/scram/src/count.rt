//! Counts of rounds.
ghost use Rattle.std.specs.Prelude.{◌≡◌, ◌↔◌, ◌++◌, IsTrue, OnOk, decimal};
ghost use Rattle.scram.specs.Words.{BeginsCount, IsRounds, Reads};

use pool_base::{List, NoMemory};
use std::alloc::Global;
use std::str;

/// An exchange has at most so many rounds.
const MOST_ROUNDS: u32 = 100_000;

/// A count in decimal digits, put behind the others.
pub(crate) fn put_count(alloc: Global, count: u32, onto: &mut List<u8>) -> Result<(), NoMemory>
    ensures { OnOk result (onto.new ≡ onto.old ++ decimal count) }
{
    let text = format!(in alloc; "{count}")?;
    onto.extend_from_slice(text.as_bytes())
}

/// Whether a digit other than 0 is in front.
fn begins_count(text: &[u8]) -> bool
    ensures { IsTrue result ↔ BeginsCount text.now }
{
    match text {
        [first, ..] => *first >= b'1' && *first <= b'9',
        [] => false,
    }
}

/// The number of rounds that a text tells: decimal digits with no zero in front.
///
/// Units: 1 to 100000 rounds.
pub(crate) fn read_rounds(text: &[u8]) -> Option<u32>
    ensures { Reads (λ rounds. IsRounds rounds × (text.now ≡ decimal rounds)) result }
{
    if !begins_count(text) {
        return None;
    }
    let Ok(digits) = str::from_utf8(text) else {
        return None;
    };
    match digits.parse::<u32>() {
        Ok(rounds) if rounds <= MOST_ROUNDS => Some(rounds),
        _ => None,
    }
}
