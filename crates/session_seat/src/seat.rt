//! The seat of a session.
ghost use Rattle.std.specs.Prelude.{◌≡◌, IfOk, false};
ghost use Rattle.session_machine.specs.Rules.{new_machine};
ghost use Rattle.session_engine.specs.Cores.{machine_in};
ghost use Rattle.session_wire.specs.Shown.{IsFresh, shown};
ghost use Rattle.session_seat.specs.declared.seat.Turn.TheVariants as turns;

use pool_base::{NoMemory, SessionId};
use session_engine::Core;
use session_machine::ReadPolicy;
use session_wire::Wire;
use std::alloc::Global;

/// Whether a session takes steps in a round.
#[derive(Clone, Copy, PartialEq, Eq)]
pub enum Turn {
    Free,
    /// It is held until it is let go.
    Held,
}

/// The seat of a session: its machine and its client.
#[derive(Drop)]
pub struct Seat {
    pub s: SessionId,
    pub core: Core,
    pub wire: Wire,
    pub turn: Turn,
    /// The session has ended: its client is to be closed.
    pub over: bool,
}

impl Seat {
    /// A session whose client has sent nothing yet.
    pub fn new(alloc: Global, s: SessionId, policy: ReadPolicy) -> Result<Seat, NoMemory>
        ensures s { IfOk result (λ seat. seat.s ≡ s) }
        ensures core { IfOk result (λ seat. machine_in seat.core ≡ new_machine s policy) }
        ensures turn { IfOk result (λ seat. seat.turn ≡ turns.Free) }
        ensures begins { IfOk result (λ seat. seat.over ≡ false) }
        ensures fresh { IfOk result (λ seat. IsFresh s.number (shown seat.wire)) }
    {
        let core = Core::new(alloc, s, policy)?;
        let wire = Wire::new(alloc, s)?;
        Ok(Seat {
            s,
            core,
            wire,
            turn: Turn::Free,
            over: false,
        })
    }
}
