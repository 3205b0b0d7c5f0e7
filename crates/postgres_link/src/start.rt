//! How a server lets a client in.
//!
//! ```text
//! Outside --AuthOk--> Inside --Ready--> let in
//!    └────────── an error ──┴─────────> turned away
//! ```
//!
//! Inside, settings, notices and a key are passed over.
ghost use Rattle.std.specs.Prelude.{◌≡◌, ℕ, List, OnErr, Ok};
ghost use Rattle.pg_messages.specs.declared.server.ServerMessage.TheVariants as message;
ghost use Rattle.postgres_link.specs.Hearing.{IsStep};
ghost use Rattle.postgres_link.specs.Start.{Goes, Ends, Exceeds};

use crate::code::code_of;
use crate::hearing::{Excess, Hearer, Step};
use pg_messages::{Part, ServerMessage};
use pool_base::{Code, NoMemory};
use std::alloc::Global;

/// How far a client has come in.
#[derive(Clone, Copy)]
pub enum Arrival {
    Outside,
    /// The server has let it in, without a password.
    Inside,
}

/// What a client's start came to.
#[derive(Clone, Copy)]
pub enum Welcome {
    /// The server is ready for a first text.
    Ready,
    /// The server has turned the client away, with this code.
    Refused(Code),
}

/// What an error ends the start with: its code, or nothing where it has none.
fn turned_away(parts: &[Part]) -> Step<Welcome>
    ensures { (old new : Arrival) → IsStep Goes Ends result old (message.Error parts.now) new }
{
    match code_of(parts) {
        Some(code) => Step::Ends(Welcome::Refused(code)),
        None => Step::Breaks,
    }
}

impl Hearer for Arrival {
    type Reply = Welcome;

    ghost Goes = { Goes };

    ghost Ends = { Ends };

    ghost Exceeds = { Exceeds };

    fn step(&mut self, _: Global, message: &ServerMessage) -> Result<Step<Welcome>, NoMemory> {
        Ok(match (*self, message) {
            (Arrival::Outside, ServerMessage::AuthOk) => {
                *self = Arrival::Inside;
                Step::Goes
            }
            (Arrival::Inside, ServerMessage::ParameterStatus { .. })
            | (Arrival::Inside, ServerMessage::Notice { .. })
            | (Arrival::Inside, ServerMessage::BackendKey { .. }) => Step::Goes,
            (Arrival::Inside, ServerMessage::Ready { status: b'I' }) => Step::Ends(Welcome::Ready),
            (_, ServerMessage::Error { parts }) => turned_away(parts.as_slice()),
            _ => Step::Breaks,
        })
    }

    fn exceed(&mut self, _: Excess) -> bool {
        false
    }
}
