//! What the first bytes of a connection are.
ghost use Rattle.std.specs.Prelude.{IfOk};
ghost use Rattle.pg_messages.specs.Fronts.{start_front};
ghost use Rattle.pg_messages.specs.declared.read.Read.TheVariants.{Whole};
ghost use Rattle.serve_base.specs.Firsts.{IsFirst};

use pg_messages::{Pair, Read, StartMessage, read_start};
use pool_base::{List, NoMemory};
use std::alloc::Global;

/// What the bytes of a connection begin with.
#[derive(Drop)]
pub enum First {
    /// Not all of a message has come.
    More,
    /// A request for encryption of so many bytes. Another message comes behind its answer.
    Asks(usize),
    /// A start message with these options.
    Starts(List<Pair>),
    /// A wish that another session be interrupted, or nothing that a connection begins with.
    Other,
}

/// What the bytes begin with.
pub fn first_of(alloc: Global, bytes: &[u8]) -> Result<First, NoMemory>
    ensures { IfOk result (λ first. IsFirst (start_front bytes.now) first) }
{
    match read_start(alloc, bytes)? {
        Read::More => Ok(First::More),
        Read::Bad { .. } => Ok(First::Other),
        Read::TooLong { .. } => Ok(First::Other),
        Read::Whole { message, length } => Ok(first_by(message, length)),
    }
}

/// What a whole message of so many bytes is.
fn first_by(message: StartMessage, length: usize) -> First
    ensures { IsFirst (Whole message length) result }
{
    match message {
        StartMessage::Ssl => First::Asks(length),
        StartMessage::Gss => First::Asks(length),
        StartMessage::Cancel { .. } => First::Other,
        StartMessage::Start { options, .. } => First::Starts(options),
    }
}
