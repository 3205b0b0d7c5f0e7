//! What a recovery hears of a backend.
ghost use Rattle.std.specs.Prelude.{◌≡◌, ◌<◌, ◌≤◌, ℕ, length, IfOk, OnOk};
ghost use Rattle.session_machine.specs.declared.action.SessionEvent.TheVariants as events;
ghost use Rattle.session_machine.specs.declared.machine.Machine.{Machine};
ghost use Rattle.online_recovery.specs.Allowed.{MayHappen};
ghost use Rattle.online_recovery.specs.Asking.{standing_in};
ghost use Rattle.online_recovery.specs.Rules.{after as led};
ghost use Rattle.session_seat.specs.Shared.{Serves, Shared, shared_of};
ghost use Rattle.session_seat.specs.Steps.{IsDid};
ghost use Rattle.session_seat.specs.Told.{added, told_of};
ghost use Rattle.session_seat.specs.Speech.{Speech};
ghost use Rattle.recovery_seat.specs.Speech.{SpeaksOn};
ghost use Rattle.recovery_seat.specs.Steps.{GoesOn, at};

use backend_trait::{Answer, Backend, Polled};
use journal::Event;
use online_recovery::Recovery;
use pgproto::Mark;
use pool_base::{BackendId, SessionId};
use session_seat::{Book, Looked, Setting, Step, StepFault, World};

/// Looks for the answer of the backend that is waited for.
pub(crate) fn hear<B: Backend>(
    setting: Setting,
    s: SessionId,
    recovery: &mut Recovery,
    b: BackendId,
    world: &mut World<B>,
    book: &mut Book,
) -> Result<Step, StepFault>
    ensures noted { (machine : Machine) → (others : ℕ) → IfOk result (λ step. GoesOn
        setting.entry.tables.now s others
        (at (shared_of B.meaning world.old.gate.state world.old.tables world.old.count
        world.old.shelf.items) machine (standing_in recovery.old) book.old.journal) step
        (at (shared_of B.meaning world.new.gate.state world.new.tables world.new.count
        world.new.shelf.items) machine (standing_in recovery.new) book.new.journal)) }
    ensures speaks { (machine : Machine) → (others : ℕ) → (was : Speech)
        → was.lines ≡ book.old.lines → IfOk result (λ step. SpeaksOn setting.entry.tables.now
        setting.entry.moment setting.entry.config.now.nodes s others
        (at (shared_of B.meaning world.old.gate.state world.old.tables world.old.count
        world.old.shelf.items) machine (standing_in recovery.old) book.old.journal) was step
        (at (shared_of B.meaning world.new.gate.state world.new.tables world.new.count
        world.new.shelf.items) machine (standing_in recovery.new) book.new.journal)
        (record was { lines = book.new.lines })) }
    ensures did { IfOk result (λ step. IsDid step → book.old.events < book.new.events) }
    ensures events { book.old.events ≤ book.new.events }
    ensures tables { world.new.tables ≡ world.old.tables }
    ensures count { world.new.count ≡ world.old.count }
    ensures boxes { length world.new.shelf.items ≡ length world.old.shelf.items }
{
    let Looked {
        before,
        after,
        polled,
    } = world.poll(s, b)?;
    match polled {
        Polled::NotYet => Ok(Step::Waits),
        Polled::NoMemory => Err(StepFault::NoMemory),
        Polled::Answered(answer) => take(setting, s, recovery, b, answer, book),
        Polled::Lost => miss(setting, s, recovery, b, before, after, book),
    }
}

/// The backend acts, and the recovery takes its answer.
fn take(
    setting: Setting,
    s: SessionId,
    recovery: &mut Recovery,
    b: BackendId,
    answer: Answer,
    book: &mut Book,
) -> Result<Step, StepFault>
    ensures noted { (machine : Machine) → (others : ℕ) → (old new : Shared)
        → new.gate ≡ old.gate
        → Serves setting.entry.tables.now old.stores s.number (events.Taken b answer) new.stores
        → IfOk result (λ step. GoesOn setting.entry.tables.now s others
        (at old machine (standing_in recovery.old) book.old.journal) step
        (at new machine (standing_in recovery.new) book.new.journal)) }
    ensures speaks { (machine : Machine) → (others : ℕ) → (old new : Shared) → (was : Speech)
        → new.gate ≡ old.gate
        → Serves setting.entry.tables.now old.stores s.number (events.Taken b answer) new.stores
        → was.lines ≡ book.old.lines → IfOk result (λ step. SpeaksOn setting.entry.tables.now
        setting.entry.moment setting.entry.config.now.nodes s others
        (at old machine (standing_in recovery.old) book.old.journal) was step
        (at new machine (standing_in recovery.new) book.new.journal)
        (record was { lines = book.new.lines })) }
    ensures did { IfOk result (λ step. IsDid step → book.old.events < book.new.events) }
    ensures events { book.old.events ≤ book.new.events }
{
    if let Err(fault) = note_answer(setting, s, recovery, b, &answer, book) {
        drop(answer);
        return Err(fault);
    }
    recovery.backend_answer(b, answer);
    Ok(Step::Did(Some(Mark::Answer(b))))
}

/// Notes that the backend acts and that the recovery takes its answer, where that may be.
fn note_answer(
    setting: Setting,
    s: SessionId,
    recovery: &Recovery,
    b: BackendId,
    answer: &Answer,
    book: &mut Book,
) -> Result<(), StepFault>
    ensures may { OnOk result (MayHappen (standing_in recovery.now) (events.Taken b answer.now)) }
    ensures lines { OnOk result (book.new.journal ≡ added book.old.journal (told_of
        setting.entry.tables.now s (events.Taken b answer.now))) }
    ensures still { book.new.lines ≡ book.old.lines }
    ensures did { OnOk result (book.old.events < book.new.events) }
    ensures events { book.old.events ≤ book.new.events }
{
    let may = recovery.may_hear(setting.alloc, b, answer)?;
    if !may {
        return Err(StepFault::Stopped);
    }
    book.note(setting, Event::Act { s, b, answer })?;
    book.note(setting, Event::Take { s, b, answer })
}

/// The recovery sees that the backend is lost.
fn miss(
    setting: Setting,
    s: SessionId,
    recovery: &mut Recovery,
    b: BackendId,
    before: u64,
    after: u64,
    book: &mut Book,
) -> Result<Step, StepFault>
    ensures is { IfOk result IsDid }
    ensures may { OnOk result (MayHappen (standing_in recovery.old)
        (events.Faulted b before after)) }
    ensures leads { OnOk result (standing_in recovery.new ≡
        led (standing_in recovery.old) (events.Faulted b before after)) }
    ensures line { OnOk result (book.new.journal ≡ added book.old.journal (told_of
        setting.entry.tables.now s (events.Faulted b before after))) }
    ensures still { book.new.lines ≡ book.old.lines }
    ensures did { OnOk result (book.old.events < book.new.events) }
    ensures events { book.old.events ≤ book.new.events }
{
    if !recovery.may_lose(b, before, after) {
        return Err(StepFault::Stopped);
    }
    book.note(
        setting,
        Event::Fault {
            s,
            b,
            before,
            after,
        },
    )?;
    recovery.backend_lost(b, before, after);
    Ok(Step::Did(None))
}
