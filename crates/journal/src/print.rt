//! The line of an event.
ghost use Rattle.std.specs.Prelude.{◌≡◌, ◌++◌, ◌∷◌, [], IfOk, OnOk, codes, string_bytes};
ghost use Rattle.std.specs.Fmt.{decimal};
ghost use Rattle.journal.specs.Parts.{spelled_place};
ghost use Rattle.journal.specs.Calls.{spelled_call, spelled_gate_answer};
ghost use Rattle.journal.specs.Answers.{spelled_answer, spelled_cause};
ghost use Rattle.journal.specs.Orders.{spelled_order, spelled_request};
ghost use Rattle.journal.specs.Outcomes.{spelled_outcome, spelled_status};
ghost use Rattle.journal.specs.Events.{spelled_event};

use crate::answers::{push_answer, push_cause};
use crate::calls::{push_call, push_gate_answer};
use crate::event::Event;
use crate::orders::{push_order, push_request};
use crate::outcomes::{push_outcome, push_status};
use crate::pieces::{push_counted, push_placed, push_word};
use backend_trait::{Answer, Request};
use catalogue::Catalogue;
use pool_base::{BackendId, GateAnswer, GateCall, NoMemory, SessionId, Text};
use session_machine::{Cause, Status};
use session_orders::{Order, Outcome};
use std::alloc::Global;

/// The line of an event, with its LF.
///
/// Shape: its word, the session, the backend where it has one, and what it speaks of, with one
/// space between two parts: `post 1 0 take-snapshot`. A statement is its one text of SQL, in
/// quotes, where bytes are shown as in a transcript.
pub fn print_event(alloc: Global, tables: &Catalogue, event: Event) -> Result<Text, NoMemory>
    ensures { IfOk result (λ text. text ≡ spelled_event tables.now event.entry ++ 10 ∷ []) }
{
    let mut line = String::new(alloc);
    push_event(alloc, tables, event, &mut line)?;
    push_word("\n", &mut line)?;
    Ok(Text::from_string(line))
}

fn push_event(
    alloc: Global,
    tables: &Catalogue,
    event: Event,
    onto: &mut String,
) -> Result<(), NoMemory>
    ensures { OnOk result (string_bytes onto.new
        ≡ string_bytes onto.old ++ spelled_event tables.now event.entry) }
{
    match event {
        Event::Order { s, order } => push_ordered(alloc, tables, s, order, onto),
        Event::Gate { s, call, answer } => push_called(s, call, answer, onto),
        Event::Post { s, b, request } => push_posted(alloc, tables, s, b, request, onto),
        Event::Act { s, b, answer } => push_answered("act ", s, b, answer, onto),
        Event::Take { s, b, answer } => push_answered("take ", s, b, answer, onto),
        Event::Lost { b } => push_counted("lost ", u64::from(b.number), onto),
        Event::Fault {
            s,
            b,
            before,
            after,
        } => push_fault(s, b, before, after, onto),
        Event::Detach { s, b, cause } => push_detached(s, b, cause, onto),
        Event::Swap { s, b } => push_placed("swap ", s, b, onto),
        Event::Reply { s, status, outcome } => push_replied(alloc, s, status, outcome, onto),
        Event::End { s } => push_counted("end ", u64::from(s.number), onto),
    }
}

fn push_ordered(
    alloc: Global,
    tables: &Catalogue,
    s: SessionId,
    order: &Order,
    onto: &mut String,
) -> Result<(), NoMemory>
    ensures { OnOk result (string_bytes onto.new ≡ string_bytes onto.old ++ (codes "order "
        ++ (decimal s.number ++ (32 ∷ spelled_order tables.now order.now)))) }
{
    push_counted("order ", u64::from(s.number), onto)?;
    push_word(" ", onto)?;
    push_order(alloc, tables, order, onto)
}

fn push_called(
    s: SessionId,
    call: GateCall,
    answer: GateAnswer,
    onto: &mut String,
) -> Result<(), NoMemory>
    ensures { OnOk result (string_bytes onto.new ≡ string_bytes onto.old ++ (codes "gate "
        ++ (decimal s.number ++ (32 ∷ (spelled_call call ++ (32 ∷ spelled_gate_answer answer)))))) }
{
    push_counted("gate ", u64::from(s.number), onto)?;
    push_word(" ", onto)?;
    push_call(call, onto)?;
    push_word(" ", onto)?;
    push_gate_answer(answer, onto)
}

fn push_posted(
    alloc: Global,
    tables: &Catalogue,
    s: SessionId,
    b: BackendId,
    request: &Request,
    onto: &mut String,
) -> Result<(), NoMemory>
    ensures { OnOk result (string_bytes onto.new ≡ string_bytes onto.old ++ (codes "post "
        ++ (spelled_place s b ++ (32 ∷ spelled_request tables.now request.now)))) }
{
    push_placed("post ", s, b, onto)?;
    push_word(" ", onto)?;
    push_request(alloc, tables, request, onto)
}

/// An answer: that a backend acts with it, or that the session takes it.
fn push_answered(
    word: &str,
    s: SessionId,
    b: BackendId,
    answer: &Answer,
    onto: &mut String,
) -> Result<(), NoMemory>
    ensures { OnOk result (string_bytes onto.new ≡ string_bytes onto.old ++ (word.now
        ++ (spelled_place s b ++ (32 ∷ spelled_answer answer.now)))) }
{
    push_placed(word, s, b, onto)?;
    push_word(" ", onto)?;
    push_answer(answer, onto)
}

fn push_fault(
    s: SessionId,
    b: BackendId,
    before: u64,
    after: u64,
    onto: &mut String,
) -> Result<(), NoMemory>
    ensures { OnOk result (string_bytes onto.new ≡ string_bytes onto.old ++ (codes "fault "
        ++ (spelled_place s b ++ (32 ∷ (decimal before ++ (32 ∷ decimal after)))))) }
{
    push_placed("fault ", s, b, onto)?;
    push_counted(" ", before, onto)?;
    push_counted(" ", after, onto)
}

fn push_detached(
    s: SessionId,
    b: BackendId,
    cause: &Cause,
    onto: &mut String,
) -> Result<(), NoMemory>
    ensures { OnOk result (string_bytes onto.new ≡ string_bytes onto.old ++ (codes "detach "
        ++ (spelled_place s b ++ (32 ∷ spelled_cause cause.now)))) }
{
    push_placed("detach ", s, b, onto)?;
    push_word(" ", onto)?;
    push_cause(cause, onto)
}

fn push_replied(
    alloc: Global,
    s: SessionId,
    status: Status,
    outcome: &Outcome,
    onto: &mut String,
) -> Result<(), NoMemory>
    ensures { OnOk result (string_bytes onto.new ≡ string_bytes onto.old ++ (codes "reply "
        ++ (decimal s.number ++ (32 ∷ (spelled_status status
        ++ (32 ∷ spelled_outcome outcome.now)))))) }
{
    push_counted("reply ", u64::from(s.number), onto)?;
    push_word(" ", onto)?;
    push_status(status, onto)?;
    push_word(" ", onto)?;
    push_outcome(alloc, outcome, onto)
}
