//! The body of a client's first message: the name of the way, and what it says in it.
ghost use Rattle.std.specs.Prelude.{◌≡◌, ◌≢◌, ◌++◌, ◌+◌, ◌<◌, ◌^◌, ℕ, List as Sequence, MatchOption, IfOk, length};
ghost use Rattle.login.specs.Initial.{initial_body};

use pool_base::{List, NoMemory};
use std::alloc::Global;

/// The name of the way, with the zero byte that ends it.
const WAY: &[u8] = b"SCRAM-SHA-256\0";

/// The body with this message.
///
/// Source: PostgreSQL, Frontend/Backend Protocol, "Message Formats", SASLInitialResponse.
pub(crate) fn initial_body(alloc: Global, message: &[u8]) -> Result<List<u8>, NoMemory>
    requires { length message.now < 2 ^ 32 }
    ensures { IfOk result (λ body. body ≡ initial_body message.now) }
{
    let mut body = List::from_slice(alloc, WAY)?;
    body.extend_from_slice(&(message.len() as u32).to_be_bytes())?;
    body.extend_from_slice(message)?;
    Ok(body)
}

/// The message of a body.
///
/// Source: PostgreSQL, Frontend/Backend Protocol, "Message Formats", SASLInitialResponse. House
/// rule: there is a message.
pub(crate) fn message_of(body: &[u8]) -> Option<&[u8]>
    ensures { MatchOption result
        ((message : Sequence ℕ) → length message < 2 ^ 32 → body.now ≢ initial_body message)
        (λ message. body.now ≡ initial_body message.now) }
{
    let sized = body.strip_prefix(WAY)?;
    let [a, b, c, d, message @ ..] = sized else {
        return None;
    };
    let stated = u32::from_be_bytes([*a, *b, *c, *d]);
    if message.len() == stated as usize {
        Some(message)
    } else {
        None
    }
}
