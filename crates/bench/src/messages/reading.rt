//! Reading the messages of some bytes, and counting them.
ghost use Rattle.std.specs.Prelude.{◌≡◌, ◌<◌, ◌≤◌, ◌^◌, ◌↔◌, ℕ, length, IfOk, IfSome};
ghost use Rattle.pg_messages.specs.declared.client.ClientMessage.{ClientMessage};
ghost use Rattle.pg_messages.specs.declared.read.Read.TheVariants.{Whole};
ghost use Rattle.bench.specs.Runs.{StartsWith, Counts};

use pg_messages::{ClientMessage, Read, read_client};
use pool_base::NoMemory;
use std::alloc::Global;

/// How many messages there were, and their bytes.
#[derive(Clone, Copy, Debug, PartialEq, Eq, Drop)]
pub struct Tally {
    pub messages: u64,
    pub bytes: u64,
}

/// The length of the message, if one was found.
fn length_of(read: &Read<ClientMessage>) -> Option<usize>
    ensures { (n : ℕ) → (result ≡ Some n) ↔ ((m : ClientMessage) × (read.now ≡ Whole m n)) }
{
    match read {
        Read::Whole { length, .. } => Some(*length),
        Read::More | Read::Bad { .. } | Read::TooLong { .. } => None,
    }
}

/// The length of the message at the front of the bytes, if one stands there.
fn first_length(alloc: Global, bytes: &[u8]) -> Result<Option<usize>, NoMemory>
    ensures first { IfOk result (λ found. (n : ℕ) → (found ≡ Some n) ↔ StartsWith n bytes.now) }
    ensures within { IfOk result (λ found. IfSome found (λ n. (0 < n) × (n ≤ length bytes.now))) }
{
    let read = read_client(alloc, bytes)?;
    Ok(length_of(&read))
}

/// Reads the messages at the front of the bytes, one behind another, until none stands there.
fn read_run(alloc: Global, bytes: &[u8]) -> Result<Tally, NoMemory>
    ensures counts { IfOk result (Counts 1 bytes.now) }
    ensures messages { IfOk result (λ tally. tally.messages ≤ length bytes.now) }
    ensures bytes { IfOk result (λ tally. tally.bytes ≤ length bytes.now) }
{
    let mut messages: u64 = 0;
    let mut total: u64 = 0;
    let mut rest = bytes;
    'run: while let Some(length) = first_length(alloc, rest)? {
        messages += 1;
        total += length as u64;
        rest = rest.split_at(length).1;
    }
    Ok(Tally {
        messages,
        bytes: total,
    })
}

/// Reads the messages at the front of the bytes so many times, and counts them all.
pub fn read_times(alloc: Global, bytes: &[u8], times: u32) -> Result<Tally, NoMemory>
    requires { length bytes.now < 2 ^ 31 }
    ensures { IfOk result (Counts times bytes.now) }
{
    let mut messages: u64 = 0;
    let mut total: u64 = 0;
    for done in 0..times {
        let run = read_run(alloc, bytes)?;
        messages += run.messages;
        total += run.bytes;
    }
    Ok(Tally {
        messages,
        bytes: total,
    })
}
