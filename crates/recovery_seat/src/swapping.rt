//! The Swap: a blank store takes the place of the backend that is brought in.
ghost use Rattle.std.specs.Prelude.{◌≡◌, ◌<◌, ◌≤◌, false, length, IfOk};
ghost use Rattle.schema.specs.Allowed.{AreAllowed};
ghost use Rattle.schema.specs.Ranges.{AreInRange};
ghost use Rattle.session_machine.specs.Rules.{next_action as session_action};
ghost use Rattle.session_engine.specs.Cores.{machine_in};
ghost use Rattle.online_recovery.specs.declared.ask.RecoveryAsk.TheVariants as asks;
ghost use Rattle.online_recovery.specs.Asking.{IsSwap, asked_of, standing_in};
ghost use Rattle.online_recovery.specs.Rules.{next_action};
ghost use Rattle.session_seat.specs.Shared.{shared_of};
ghost use Rattle.session_seat.specs.Steps.{IsDid};
ghost use Rattle.session_seat.specs.Speech.{Speech};
ghost use Rattle.recovery_seat.specs.Speech.{SpeaksOn};
ghost use Rattle.recovery_seat.specs.Steps.{GoesOn, IsAt, at};

use crate::place::backend_of;
use backend_trait::Backend;
use journal::Event;
use online_recovery::Recovery;
use pool_base::{BackendId, BackendSet};
use session_engine::Core;
use session_seat::{Book, Seat, Setting, Step, StepFault, World};

/// Puts the spare box in the place of a backend, where nobody waits for an answer and nobody is due
/// to post a request.
pub(crate) fn swap<B: Backend>(
    setting: Setting,
    seat: &Seat,
    recovery: &mut Recovery,
    spare: &mut Option<usize>,
    b: BackendId,
    others: BackendSet,
    world: &mut World<B>,
    book: &mut Book,
) -> Result<Step, StepFault>
    requires due { IsSwap (next_action (standing_in recovery.old)) }
    requires asked { asked_of (next_action (standing_in recovery.old)) ≡ asks.Swap b }
    requires in_range { AreInRange setting.tables.now }
    requires allowed { AreAllowed setting.tables.now }
    requires tables { world.old.tables ≡ setting.tables.now }
    ensures noted { IfOk result (λ step. GoesOn setting.entry.tables.now seat.now.s others.bits
        (at (shared_of B.meaning world.old.gate.state world.old.tables world.old.count
        world.old.shelf.items) (machine_in seat.now.core) (standing_in recovery.old)
        book.old.journal) step
        (at (shared_of B.meaning world.new.gate.state world.new.tables world.new.count
        world.new.shelf.items) (machine_in seat.now.core) (standing_in recovery.new)
        book.new.journal)) }
    ensures speaks { (was : Speech) → was.lines ≡ book.old.lines → IfOk result (λ step. SpeaksOn
        setting.entry.tables.now setting.entry.moment setting.entry.config.now.nodes seat.now.s
        others.bits (at (shared_of B.meaning world.old.gate.state world.old.tables world.old.count
        world.old.shelf.items) (machine_in seat.now.core) (standing_in recovery.old)
        book.old.journal) was step
        (at (shared_of B.meaning world.new.gate.state world.new.tables world.new.count
        world.new.shelf.items) (machine_in seat.now.core) (standing_in recovery.new)
        book.new.journal) (record was { lines = book.new.lines })) }
    ensures did { IfOk result (λ step. IsDid step → book.old.events < book.new.events) }
    ensures events { book.old.events ≤ book.new.events }
    ensures tables { world.new.tables ≡ world.old.tables }
    ensures count { world.new.count ≡ world.old.count }
    ensures boxes { length world.new.shelf.items ≡ length world.old.shelf.items }
{
    let Some(at) = *spare else {
        return Err(StepFault::Stopped);
    };
    if others.has(b) || is_at(&seat.core, b) {
        return Ok(Step::Waits);
    }
    world.swap(b, at)?;
    book.note(setting, Event::Swap { s: seat.s, b })?;
    recovery.swapped();
    *spare = None;
    Ok(Step::Did(None))
}

/// Whether a session is due to post a request to a backend, or waits for its answer.
fn is_at(core: &Core, b: BackendId) -> bool
    ensures { result ≡ false → ¬ (IsAt b (session_action (machine_in core.now))) }
{
    match backend_of(core) {
        Some(other) => other.number == b.number,
        None => false,
    }
}
