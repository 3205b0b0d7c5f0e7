//! What a session hears of a backend, and its detachment.
ghost use Rattle.std.specs.Prelude.{◌≡◌, ◌+◌, ◌++◌, ◌<◌, ◌≤◌, ◌⊎◌, length, string_bytes, Some, None, IfOk, IfErr, OnOk, if◌then◌else◌, take as front};
ghost use Rattle.pgproto.specs.declared.line.Mark.TheVariants as marks;
ghost use Rattle.session_machine.specs.Allowed.{MayHappen};
ghost use Rattle.session_machine.specs.Rules.{next_action};
ghost use Rattle.session_machine.specs.declared.action.SessionEvent.TheVariants as events;
ghost use Rattle.session_machine.specs.declared.action.Cause.{Cause};
ghost use Rattle.session_engine.specs.declared.ask.Ask.TheVariants as asks;
ghost use Rattle.session_engine.specs.Cores.{machine_in};
ghost use Rattle.session_engine.specs.Handing.{Detaches, IsDetach, asked_of};
ghost use Rattle.session_seat.specs.Policy.{policy_in};
ghost use Rattle.session_seat.specs.Told.{added, told_lost, told_of};
ghost use Rattle.session_seat.specs.Shared.{Serves, Shared, shared_of};
ghost use Rattle.session_seat.specs.Schedule.{led};
ghost use Rattle.session_seat.specs.Steps.{IsDid, at};
ghost use Rattle.session_seat.specs.Dues.{WaitsFor};
ghost use Rattle.session_seat.specs.Stops.{IsFull, IsUnfit, MayLookAt};
ghost use Rattle.session_seat.specs.Speech.{IsQuietStep, Speaks, detached_line, speech, told_detached};
ghost use Rattle.session_seat.specs.declared.fault.StepFault.TheVariants.{Stopped};
ghost use Rattle.session_seat.specs.declared.step.Step.TheVariants as steps;

use crate::book::Book;
use crate::fault::StepFault;
use crate::posting::Looked;
use crate::seat::Seat;
use crate::setting::Setting;
use crate::step::Step;
use crate::world::World;
use backend_trait::{Answer, Backend, Polled};
use journal::Event;
use pgproto::Mark;
use pool_base::{BackendId, GateAnswer, GateCall, NoMemory};
use session_machine::Cause;
use std::alloc::Global;

/// Looks for the answer of the backend that is waited for.
pub(crate) fn hear<B: Backend>(
    setting: Setting,
    seat: &mut Seat,
    b: BackendId,
    world: &mut World<B>,
    book: &mut Book,
) -> Result<Step, StepFault>
    requires asked { asked_of (next_action (machine_in seat.old.core)) ≡ asks.WaitFor b }
    ensures did { IfOk result (λ step. IsDid step → book.old.events < book.new.events) }
    ensures events { book.old.events ≤ book.new.events }
    ensures s { seat.new.s ≡ seat.old.s }
    ensures turn { seat.new.turn ≡ seat.old.turn }
    ensures tables { world.new.tables ≡ world.old.tables }
    ensures count { world.new.count ≡ world.old.count }
    ensures boxes { length world.new.shelf.items ≡ length world.old.shelf.items }
    ensures quiet { IfOk result (λ step. IsQuietStep setting.entry.tables.now seat.old.s
        (at (shared_of B.meaning world.old.gate.state world.old.tables world.old.count
        world.old.shelf.items) (machine_in seat.old.core) book.old.journal) step
        (at (shared_of B.meaning world.new.gate.state world.new.tables world.new.count
        world.new.shelf.items) (machine_in seat.new.core) book.new.journal)) }
    ensures wire { seat.new.wire ≡ seat.old.wire }
    ensures over { seat.new.over ≡ seat.old.over }
    ensures lines { book.new.lines ≡ book.old.lines }
    ensures due { IfOk result (λ step. WaitsFor B.meaning B.is_prompt
        (front world.old.count world.old.shelf.items) seat.old.s b step) }
    ensures stopped { IfErr result (λ e. e ≡ Stopped → IsFull book.old.events
        ⊎ ((MayLookAt world.old.count world.old.rolls seat.old.s.number b.number → ⊥)
        ⊎ IsUnfit B.meaning B.is_prompt (front world.old.count world.old.shelf.items)
        (machine_in seat.old.core) seat.old.s b)) }
{
    let Looked {
        before,
        after,
        polled,
    } = world.poll(seat.s, b)?;
    match polled {
        Polled::NotYet => Ok(Step::Waits),
        Polled::NoMemory => Err(StepFault::NoMemory),
        Polled::Answered(answer) => take(setting, seat, b, answer, book),
        Polled::Lost => miss(setting, seat, b, before, after, book),
    }
}

/// The backend acts, and the session takes its answer.
fn take(
    setting: Setting,
    seat: &mut Seat,
    b: BackendId,
    answer: Answer,
    book: &mut Book,
) -> Result<Step, StepFault>
    ensures did { IfOk result (λ step. IsDid step → book.old.events < book.new.events) }
    ensures events { book.old.events ≤ book.new.events }
    ensures s { seat.new.s ≡ seat.old.s }
    ensures turn { seat.new.turn ≡ seat.old.turn }
    ensures quiet { (old new : Shared) → new.gate ≡ old.gate
        → Serves setting.entry.tables.now old.stores seat.old.s.number (events.Taken b answer)
        new.stores → IfOk result (λ step. IsQuietStep setting.entry.tables.now seat.old.s
        (at old (machine_in seat.old.core) book.old.journal) step
        (at new (machine_in seat.new.core) book.new.journal)) }
    ensures wire { seat.new.wire ≡ seat.old.wire }
    ensures over { seat.new.over ≡ seat.old.over }
    ensures lines { book.new.lines ≡ book.old.lines }
    ensures due { IfOk result (λ step. step ≡ steps.Did (Some (marks.Answer b))) }
    ensures stopped { IfErr result (λ e. e ≡ Stopped → IsFull book.old.events
        ⊎ (MayHappen (machine_in seat.old.core) (events.Taken b answer) → ⊥)) }
{
    if let Err(fault) = note_answer(setting, seat, b, &answer, book) {
        drop(answer);
        return Err(fault);
    }
    seat.core.backend_answer(b, answer);
    Ok(Step::Did(Some(Mark::Answer(b))))
}

/// Notes that the backend acts and that the session takes its answer, where that may be.
fn note_answer(
    setting: Setting,
    seat: &Seat,
    b: BackendId,
    answer: &Answer,
    book: &mut Book,
) -> Result<(), StepFault>
    ensures may { OnOk result (MayHappen (machine_in seat.now.core) (events.Taken b answer.now)) }
    ensures still { book.new.lines ≡ book.old.lines }
    ensures lines { OnOk result (book.new.journal ≡ added book.old.journal (told_of
        setting.entry.tables.now seat.now.s (events.Taken b answer.now))) }
    ensures did { OnOk result (book.old.events < book.new.events) }
    ensures events { book.old.events ≤ book.new.events }
    ensures stopped { IfErr result (λ e. e ≡ Stopped → IsFull book.old.events
        ⊎ (MayHappen (machine_in seat.now.core) (events.Taken b answer.now) → ⊥)) }
{
    if !seat.core.may_hear(b, answer) {
        return Err(StepFault::Stopped);
    }
    let s = seat.s;
    book.note(setting, Event::Act { s, b, answer })?;
    book.note(setting, Event::Take { s, b, answer })
}

/// Notes the loss of a backend, where it is new.
pub fn note_loss(
    setting: Setting,
    b: BackendId,
    is_new: bool,
    book: &mut Book,
) -> Result<(), StepFault>
    ensures line { OnOk result (book.new.journal
        ≡ (if is_new then added book.old.journal (told_lost b) else book.old.journal)) }
    ensures events { book.old.events ≤ book.new.events }
    ensures one { OnOk result (book.new.events ≤ book.old.events + 1) }
    ensures lines { book.new.lines ≡ book.old.lines }
    ensures stopped { IfErr result (λ e. e ≡ Stopped → IsFull book.old.events) }
{
    if !is_new {
        return Ok(());
    }
    book.note(setting, Event::Lost { b })
}

/// The session sees that the backend is lost.
fn miss(
    setting: Setting,
    seat: &mut Seat,
    b: BackendId,
    before: u64,
    after: u64,
    book: &mut Book,
) -> Result<Step, StepFault>
    requires may { MayHappen (machine_in seat.old.core) (events.Faulted b before after) }
    ensures is { IfOk result IsDid }
    ensures leads { OnOk result (machine_in seat.new.core ≡
        led (machine_in seat.old.core) (events.Faulted b before after)) }
    ensures line { OnOk result (book.new.journal ≡ added book.old.journal (told_of
        setting.entry.tables.now seat.old.s (events.Faulted b before after))) }
    ensures did { OnOk result (book.old.events < book.new.events) }
    ensures events { book.old.events ≤ book.new.events }
    ensures s { seat.new.s ≡ seat.old.s }
    ensures turn { seat.new.turn ≡ seat.old.turn }
    ensures wire { seat.new.wire ≡ seat.old.wire }
    ensures over { seat.new.over ≡ seat.old.over }
    ensures lines { book.new.lines ≡ book.old.lines }
    ensures due { IfOk result (λ step. step ≡ steps.Did None) }
    ensures stopped { IfErr result (λ e. e ≡ Stopped → 18446744073709551615 ≤ book.old.events) }
{
    book.note(
        setting,
        Event::Fault {
            s: seat.s,
            b,
            before,
            after,
        },
    )?;
    seat.core.backend_lost(b, before, after);
    Ok(Step::Did(None))
}

/// Asks the gate to detach a backend.
pub(crate) fn detach<B: Backend>(
    setting: Setting,
    seat: &mut Seat,
    b: BackendId,
    world: &mut World<B>,
    book: &mut Book,
) -> Result<Step, StepFault>
    requires due { IsDetach (next_action (machine_in seat.old.core)) }
    requires asked { asked_of (next_action (machine_in seat.old.core)) ≡ asks.Detach b }
    ensures did { IfOk result (λ step. IsDid step → book.old.events < book.new.events) }
    ensures events { book.old.events ≤ book.new.events }
    ensures s { seat.new.s ≡ seat.old.s }
    ensures turn { seat.new.turn ≡ seat.old.turn }
    ensures tables { world.new.tables ≡ world.old.tables }
    ensures count { world.new.count ≡ world.old.count }
    ensures boxes { length world.new.shelf.items ≡ length world.old.shelf.items }
    ensures speaks { IfOk result (λ step. Speaks
        setting.entry.tables.now setting.entry.moment setting.entry.config.now.nodes
        (policy_in setting.entry.config.now) seat.old.s
        (at (shared_of B.meaning world.old.gate.state world.old.tables world.old.count
        world.old.shelf.items) (machine_in seat.old.core) book.old.journal)
        (speech seat.old book.old.lines) step
        (at (shared_of B.meaning world.new.gate.state world.new.tables world.new.count
        world.new.shelf.items) (machine_in seat.new.core) book.new.journal)
        (speech seat.new book.new.lines)) }
    ensures due { IfOk result (λ step. step ≡ steps.Did None) }
    ensures stopped { IfErr result (λ e. e ≡ Stopped → IsFull book.old.events) }
{
    let answer = world.call(GateCall::Detach { b })?;
    note_detached(setting, seat, b, answer, book)?;
    seat.core.gate_answer(answer);
    Ok(Step::Did(None))
}

/// Notes a detachment with its cause. Where the gate has granted it, the transcript has its line.
fn note_detached(
    setting: Setting,
    seat: &Seat,
    b: BackendId,
    answer: GateAnswer,
    book: &mut Book,
) -> Result<(), StepFault>
    requires due { IsDetach (next_action (machine_in seat.now.core)) }
    ensures line { OnOk result ((cause : Cause) × Detaches (next_action (machine_in seat.now.core))
        cause × (book.new.journal ≡ added book.old.journal (told_of setting.entry.tables.now
        seat.now.s (events.Detached b cause answer)))) }
    ensures told { OnOk result ((cause : Cause) × Detaches (next_action (machine_in seat.now.core))
        cause × (book.new.lines ≡ book.old.lines ++ told_detached b.number cause answer)) }
    ensures did { OnOk result (book.old.events < book.new.events) }
    ensures events { book.old.events ≤ book.new.events }
    ensures stopped { IfErr result (λ e. e ≡ Stopped → IsFull book.old.events) }
{
    let cause = seat.core.cause()?;
    book.note(
        setting,
        Event::Detach {
            s: seat.s,
            b,
            cause: &cause,
        },
    )?;
    if let GateAnswer::Granted(_) = answer {
        put_detached(setting.alloc, b, &cause, book)?;
    }
    Ok(())
}

/// Puts the line of a detachment.
pub fn put_detached(
    alloc: Global,
    b: BackendId,
    cause: &Cause,
    book: &mut Book,
) -> Result<(), NoMemory>
    ensures lines { OnOk result (book.new.lines
        ≡ book.old.lines ++ detached_line b.number cause.now) }
    ensures events { book.new.events ≡ book.old.events }
    ensures journal { book.new.journal ≡ book.old.journal }
{
    let line = detached_text(alloc, b, cause)?;
    book.say(line.as_bytes())
}

/// The line of a detachment.
fn detached_text(alloc: Global, b: BackendId, cause: &Cause) -> Result<String, NoMemory>
    ensures { IfOk result (λ text. string_bytes text ≡ detached_line b.number cause.now) }
{
    let number = b.number;
    match cause {
        Cause::Fault { before, after } => {
            Ok(format!(in alloc; "pool detach {number} fault {before} {after}\n")?)
        }
        Cause::Differs { .. } => Ok(format!(in alloc; "pool detach {number} differs\n")?),
    }
}
