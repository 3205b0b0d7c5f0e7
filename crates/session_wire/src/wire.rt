//! The wire of a session.
ghost use Rattle.std.specs.Prelude.{◌≡◌, ◌≤◌, length, drop, true, IfOk, OnOk, OnErr};
ghost use Rattle.session_wire.specs.Sayings.{HasRoom};
ghost use Rattle.session_wire.specs.Shown.{shown, with_piece, IsFresh, with_end, with_written};

use crate::due::Due;
use crate::input::{Input, drop_front};
use crate::output::Output;
use catalogue::Catalogue;
use pg_messages::Pair;
use pool_base::{List, NoMemory, SessionId};
use pool_config::Config;
use session_orders::{Order, OrderBody, Outcome};
use sql_tree::Statement;
use std::alloc::Global;
use wire_session::Session;

/// What comes next of a session.
#[derive(Drop)]
pub enum WireStep {
    Order(Order),
    /// What was fed is taken, up to a message that is not whole yet.
    NeedInput,
    /// The last order has no outcome yet.
    NeedOutcome,
    /// The session is over; with a FATAL error or without.
    Close { refused: bool },
}

/// Where a session stands.
#[derive(Clone, Copy, PartialEq, Eq)]
pub(crate) enum Stage {
    /// Its start message is awaited; encryption of these kinds was declined.
    Starting { ssl: bool, gss: bool },
    Open,
    /// Its Leave is to be ordered.
    Leaving { refused: bool },
    Closed { refused: bool },
}

/// A session's client.
#[derive(Drop)]
pub struct Wire {
    pub(crate) s: SessionId,
    pub(crate) alloc: Global,
    pub(crate) stage: Stage,
    pub(crate) options: List<Pair>,
    pub(crate) session: Session,
    /// The statements of the text that runs, of which `at` were asked for.
    pub(crate) text: List<Statement>,
    pub(crate) at: usize,
    /// Whether a Settle is to be ordered.
    pub(crate) settles: bool,
    pub(crate) due: Option<Due>,
    pub(crate) input: Input,
    pub(crate) ended: bool,
    pub(crate) output: Output,
}

impl Wire {
    /// The wire of a session whose client has sent nothing yet.
    pub fn new(alloc: Global, s: SessionId) -> Result<Wire, NoMemory>
        ensures { IfOk result (λ w. IsFresh s.number (shown w)) }
    {
        Ok(Wire {
            s,
            alloc,
            stage: Stage::Starting {
                ssl: false,
                gss: false,
            },
            options: List::new(alloc),
            session: Session::new(alloc),
            text: List::new(alloc),
            at: 0,
            settles: false,
            due: None,
            input: Input::new(alloc),
            ended: false,
            output: Output::new(alloc),
        })
    }

    /// Takes the next piece of the client's bytes.
    pub fn feed(&mut self, piece: &[u8]) -> Result<(), NoMemory>
        ensures ok { OnOk result (shown self.new ≡ with_piece (shown self.old) piece.now) }
        ensures err { OnErr result (shown self.new ≡ shown self.old) }
        ensures room { HasRoom self.old.output → HasRoom self.new.output }
    {
        self.input.feed(piece)?;
        Ok(())
    }

    /// The client's bytes have ended.
    pub fn end_input(&mut self)
        ensures shown { shown self.new ≡ with_end (shown self.old) }
        ensures room { HasRoom self.old.output → HasRoom self.new.output }
    {
        self.ended = true;
    }

    /// The options of the start message; none before it was read.
    pub fn options(&self) -> &[Pair]
        ensures { result.now ≡ (shown self.now).options }
    {
        self.options.as_slice()
    }

    /// The bytes that wait to be written.
    pub fn output(&self) -> &[u8]
        ensures { result.now ≡ (shown self.now).output }
    {
        self.output.bytes.as_slice()
    }

    /// So many bytes of the output were written.
    pub fn written(&mut self, count: usize)
        requires { count ≤ length (shown self.old).output }
        ensures shown { shown self.new ≡ with_written (shown self.old) count }
        ensures room { HasRoom self.old.output → HasRoom self.new.output }
    {
        drop_front(&mut self.output.bytes, count);
    }
}
