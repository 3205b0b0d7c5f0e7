//! The calls of the gate that a recovery makes, and its detachment of a source.
ghost use Rattle.std.specs.Prelude.{◌≡◌, ◌++◌, ◌<◌, ◌≤◌, ℕ, length, IfOk, OnOk, true};
ghost use Rattle.pool_base.specs.declared.gate_call.GateAnswer.TheVariants.{Held};
ghost use Rattle.session_machine.specs.declared.action.Cause.{Cause as Reason};
ghost use Rattle.session_machine.specs.declared.action.SessionEvent.TheVariants as events;
ghost use Rattle.session_machine.specs.declared.machine.Machine.{Machine};
ghost use Rattle.online_recovery.specs.declared.ask.RecoveryAsk.TheVariants as asks;
ghost use Rattle.online_recovery.specs.Asking.{Detaches, IsDetach, asked_of, standing_in};
ghost use Rattle.online_recovery.specs.Rules.{next_action};
ghost use Rattle.session_seat.specs.Shared.{shared_of};
ghost use Rattle.session_seat.specs.Steps.{IsDid};
ghost use Rattle.session_seat.specs.Told.{added, told_of};
ghost use Rattle.session_seat.specs.Speech.{Speech, told_detached};
ghost use Rattle.recovery_seat.specs.Speech.{SpeaksOn, told_called};
ghost use Rattle.recovery_seat.specs.Steps.{GoesOn, at};

use backend_trait::Backend;
use journal::Event;
use online_recovery::Recovery;
use pool_base::{BackendId, GateAnswer, GateCall, NoMemory, SessionId};
use session_seat::{Book, Setting, Step, StepFault, World, mark_of, put_detached};
use std::alloc::Global;

/// Makes one call of the gate. Where it is held it is made again in a later round, but StartCopy:
/// there the recovery ends.
pub(crate) fn call_gate<B: Backend>(
    setting: Setting,
    s: SessionId,
    recovery: &mut Recovery,
    call: GateCall,
    world: &mut World<B>,
    book: &mut Book,
) -> Result<Step, StepFault>
    requires asked { asked_of (next_action (standing_in recovery.old)) ≡ asks.Gate call }
    ensures noted { (machine : Machine) → (others : ℕ) → IfOk result (λ step. GoesOn
        setting.entry.tables.now s others
        (at (shared_of B.meaning world.old.gate.state world.old.tables world.old.count
        world.old.shelf.items) machine (standing_in recovery.old) book.old.journal) step
        (at (shared_of B.meaning world.new.gate.state world.new.tables world.new.count
        world.new.shelf.items) machine (standing_in recovery.new) book.new.journal)) }
    ensures speaks { (machine : Machine) → (others : ℕ) → (was : Speech)
        → was.lines ≡ book.old.lines → IfOk result (λ step. SpeaksOn setting.entry.tables.now
        setting.entry.moment setting.entry.config.now.nodes s others
        (at (shared_of B.meaning world.old.gate.state world.old.tables world.old.count
        world.old.shelf.items) machine (standing_in recovery.old) book.old.journal) was step
        (at (shared_of B.meaning world.new.gate.state world.new.tables world.new.count
        world.new.shelf.items) machine (standing_in recovery.new) book.new.journal)
        (record was { lines = book.new.lines })) }
    ensures did { IfOk result (λ step. IsDid step → book.old.events < book.new.events) }
    ensures events { book.old.events ≤ book.new.events }
    ensures tables { world.new.tables ≡ world.old.tables }
    ensures count { world.new.count ≡ world.old.count }
    ensures boxes { length world.new.shelf.items ≡ length world.old.shelf.items }
{
    let answer = world.call(call)?;
    if is_tried_again(call, answer) {
        return Ok(Step::Waits);
    }
    if !recovery.may_gate_answer(&answer) {
        return Err(StepFault::Stopped);
    }
    book.note(setting, Event::Gate { s, call, answer })?;
    put_attached(setting.alloc, call, answer, book)?;
    recovery.gate_answer(answer);
    Ok(Step::Did(mark_of(call, answer)))
}

/// Whether a call was held that is tried again.
fn is_tried_again(call: GateCall, answer: GateAnswer) -> bool
    ensures { result ≡ true → (count : ℕ) × (answer ≡ Held count) }
{
    match answer {
        GateAnswer::Held(_) => !matches!(call, GateCall::StartCopy),
        GateAnswer::Seen(_) | GateAnswer::Granted(_) | GateAnswer::Spent => false,
    }
}

/// Puts the line of a backend that is attached.
fn put_attached(
    alloc: Global,
    call: GateCall,
    answer: GateAnswer,
    book: &mut Book,
) -> Result<(), NoMemory>
    ensures lines { OnOk result (book.new.lines ≡ book.old.lines ++ told_called call answer) }
    ensures events { book.new.events ≡ book.old.events }
    ensures journal { book.new.journal ≡ book.old.journal }
{
    let (GateCall::Attach { b }, GateAnswer::Granted(_)) = (call, answer) else {
        return Ok(());
    };
    let number = b.number;
    let line = format!(in alloc; "pool attach {number}\n")?;
    book.say(line.as_bytes())
}

/// Asks the gate to detach the source, which is lost.
pub(crate) fn detach<B: Backend>(
    setting: Setting,
    s: SessionId,
    recovery: &mut Recovery,
    b: BackendId,
    world: &mut World<B>,
    book: &mut Book,
) -> Result<Step, StepFault>
    requires due { IsDetach (next_action (standing_in recovery.old)) }
    requires asked { asked_of (next_action (standing_in recovery.old)) ≡ asks.Detach b }
    ensures noted { (machine : Machine) → (others : ℕ) → IfOk result (λ step. GoesOn
        setting.entry.tables.now s others
        (at (shared_of B.meaning world.old.gate.state world.old.tables world.old.count
        world.old.shelf.items) machine (standing_in recovery.old) book.old.journal) step
        (at (shared_of B.meaning world.new.gate.state world.new.tables world.new.count
        world.new.shelf.items) machine (standing_in recovery.new) book.new.journal)) }
    ensures speaks { (machine : Machine) → (others : ℕ) → (was : Speech)
        → was.lines ≡ book.old.lines → IfOk result (λ step. SpeaksOn setting.entry.tables.now
        setting.entry.moment setting.entry.config.now.nodes s others
        (at (shared_of B.meaning world.old.gate.state world.old.tables world.old.count
        world.old.shelf.items) machine (standing_in recovery.old) book.old.journal) was step
        (at (shared_of B.meaning world.new.gate.state world.new.tables world.new.count
        world.new.shelf.items) machine (standing_in recovery.new) book.new.journal)
        (record was { lines = book.new.lines })) }
    ensures did { IfOk result (λ step. IsDid step → book.old.events < book.new.events) }
    ensures events { book.old.events ≤ book.new.events }
    ensures tables { world.new.tables ≡ world.old.tables }
    ensures count { world.new.count ≡ world.old.count }
    ensures boxes { length world.new.shelf.items ≡ length world.old.shelf.items }
{
    let answer = world.call(GateCall::Detach { b })?;
    if !recovery.may_gate_answer(&answer) {
        return Err(StepFault::Stopped);
    }
    note_detached(setting, s, recovery, b, answer, book)?;
    recovery.gate_answer(answer);
    Ok(Step::Did(None))
}

/// Notes a detachment with its cause. Where the gate has granted it, the transcript has its line.
fn note_detached(
    setting: Setting,
    s: SessionId,
    recovery: &Recovery,
    b: BackendId,
    answer: GateAnswer,
    book: &mut Book,
) -> Result<(), StepFault>
    requires due { IsDetach (next_action (standing_in recovery.now)) }
    ensures line { OnOk result ((cause : Reason) × Detaches (next_action (standing_in recovery.now))
        cause × (book.new.journal ≡ added book.old.journal (told_of setting.entry.tables.now
        s (events.Detached b cause answer)))) }
    ensures told { OnOk result ((cause : Reason) × Detaches (next_action (standing_in recovery.now))
        cause × (book.new.lines ≡ book.old.lines ++ told_detached b.number cause answer)) }
    ensures did { OnOk result (book.old.events < book.new.events) }
    ensures events { book.old.events ≤ book.new.events }
{
    let cause = recovery.cause();
    book.note(
        setting,
        Event::Detach {
            s,
            b,
            cause: &cause,
        },
    )?;
    if let GateAnswer::Granted(_) = answer {
        put_detached(setting.alloc, b, &cause, book)?;
    }
    Ok(())
}
