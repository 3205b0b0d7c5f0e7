//! The requests that a recovery posts.
ghost use Rattle.std.specs.Prelude.{◌≡◌, ◌<◌, ◌≤◌, ℕ, length, IfOk};
ghost use Rattle.session_machine.specs.declared.machine.Machine.{Machine};
ghost use Rattle.online_recovery.specs.declared.ask.RecoveryAsk.TheVariants as asks;
ghost use Rattle.online_recovery.specs.Asking.{IsPost, asked_of, standing_in};
ghost use Rattle.online_recovery.specs.Rules.{next_action};
ghost use Rattle.session_seat.specs.Shared.{shared_of};
ghost use Rattle.session_seat.specs.Steps.{IsDid};
ghost use Rattle.session_seat.specs.Speech.{Speech};
ghost use Rattle.recovery_seat.specs.Speech.{SpeaksOn};
ghost use Rattle.recovery_seat.specs.Steps.{GoesOn, at};

use backend_trait::Backend;
use journal::Event;
use online_recovery::Recovery;
use pgproto::Mark;
use pool_base::{BackendId, SessionId};
use session_seat::{Book, Setting, Step, StepFault, World};

/// Posts the request that is due. It is noted before it is posted.
pub(crate) fn post<B: Backend>(
    setting: Setting,
    s: SessionId,
    recovery: &mut Recovery,
    b: BackendId,
    world: &mut World<B>,
    book: &mut Book,
) -> Result<Step, StepFault>
    requires due { IsPost (next_action (standing_in recovery.old)) }
    requires asked { asked_of (next_action (standing_in recovery.old)) ≡ asks.Post b }
    ensures noted { (machine : Machine) → (others : ℕ) → IfOk result (λ step. GoesOn
        setting.entry.tables.now s others
        (at (shared_of B.meaning world.old.gate.state world.old.tables world.old.count
        world.old.shelf.items) machine (standing_in recovery.old) book.old.journal) step
        (at (shared_of B.meaning world.new.gate.state world.new.tables world.new.count
        world.new.shelf.items) machine (standing_in recovery.new) book.new.journal)) }
    ensures speaks { (machine : Machine) → (others : ℕ) → (was : Speech)
        → was.lines ≡ book.old.lines → IfOk result (λ step. SpeaksOn setting.entry.tables.now
        setting.entry.moment setting.entry.config.now.nodes s others
        (at (shared_of B.meaning world.old.gate.state world.old.tables world.old.count
        world.old.shelf.items) machine (standing_in recovery.old) book.old.journal) was step
        (at (shared_of B.meaning world.new.gate.state world.new.tables world.new.count
        world.new.shelf.items) machine (standing_in recovery.new) book.new.journal)
        (record was { lines = book.new.lines })) }
    ensures did { IfOk result (λ step. IsDid step → book.old.events < book.new.events) }
    ensures events { book.old.events ≤ book.new.events }
    ensures tables { world.new.tables ≡ world.old.tables }
    ensures count { world.new.count ≡ world.old.count }
    ensures boxes { length world.new.shelf.items ≡ length world.old.shelf.items }
{
    let request = recovery.request(setting.alloc)?;
    let event = Event::Post {
        s,
        b,
        request: &request,
    };
    if let Err(fault) = book.note(setting, event) {
        drop(request);
        return Err(fault);
    }
    world.post(s, b, request)?;
    recovery.posted();
    Ok(Step::Did(Some(Mark::Post(b))))
}
