//! Which events may come where a session stands, as tests.
ghost use Rattle.std.specs.Prelude.{◌≡◌, ◌↔◌, IsTrue, IfOk, Some};
ghost use Rattle.backend_trait.specs.declared.answer.Answer.TheVariants as answers;
ghost use Rattle.session_orders.specs.declared.outcome.Outcome.TheVariants as outcomes;
ghost use Rattle.session_machine.specs.declared.action.SessionEvent.TheVariants as events;
ghost use Rattle.session_machine.specs.Allowed.{MayHappen};
ghost use Rattle.session_machine.specs.Rules.{next_action};
ghost use Rattle.session_engine.specs.Cores.{machine_in};
ghost use Rattle.session_engine.specs.Handing.{asked_of};
ghost use Rattle.session_engine.specs.Meaning.{machine_of};
ghost use Rattle.session_engine.specs.Places.{heard_at, rows_in};
ghost use Rattle.session_engine.specs.Dues.{rows_reply};
ghost use Rattle.world_program.specs.Deciding.{same_outcome, is_call_due, post_due, detach_due, is_end_due, is_post, is_detach, is_reply_due, is_reply};

use crate::same::{same_cause, same_outcome, same_rows};
use backend_trait::{Answer, Request, Row};
use pool_base::{BackendId, GateAnswer, GateCall, List, NoMemory};
use session_engine::{Ask, Core, Due, Standing};
use session_machine::{Cause, Heard, SessionEvent, Status, answers_call, is_seen_or_granted};
use session_orders::{Outcome, Tag};

fn is_call_due(ask: Ask, call: GateCall, answer: GateAnswer) -> bool
    ensures { result ≡ is_call_due ask call answer }
{
    match ask {
        Ask::Gate(due) => due == call && answers_call(call, &answer),
        Ask::Rest | Ask::Post(_) | Ask::WaitFor(_) | Ask::Detach(_) | Ask::Reply | Ask::End =>
            false,
    }
}

/// The backend at which a request is to be posted.
fn post_due(ask: Ask) -> Option<BackendId>
    ensures { result ≡ post_due ask }
{
    match ask {
        Ask::Post(b) => Some(b),
        Ask::Rest | Ask::Gate(_) | Ask::WaitFor(_) | Ask::Detach(_) | Ask::Reply | Ask::End => None,
    }
}

/// The backend that is to be detached.
fn detach_due(ask: Ask) -> Option<BackendId>
    ensures { result ≡ detach_due ask }
{
    match ask {
        Ask::Detach(b) => Some(b),
        Ask::Rest | Ask::Gate(_) | Ask::Post(_) | Ask::WaitFor(_) | Ask::Reply | Ask::End => None,
    }
}

fn is_end_due(ask: Ask) -> bool
    ensures { result ≡ is_end_due ask }
{
    match ask {
        Ask::End => true,
        Ask::Rest | Ask::Gate(_) | Ask::Post(_) | Ask::WaitFor(_) | Ask::Detach(_) | Ask::Reply =>
            false,
    }
}

/// Whether that call is due, and may be answered so.
fn may_call(core: &Core, call: GateCall, answer: GateAnswer) -> bool
    ensures { IsTrue result ↔ MayHappen (machine_in core.now) (events.Called call answer) }
{
    is_call_due(core.asks(), call, answer)
}

fn is_post(due: BackendId, made: &Request, b: BackendId, request: &Request) -> bool
    ensures { result ≡ is_post due made.now b request.now }
{
    due.number == b.number && *made == *request
}

fn posts(core: &Core, due: BackendId, b: BackendId, request: &Request) -> Result<bool, NoMemory>
    requires { post_due (asked_of (next_action (machine_in core.now))) ≡ Some due }
    ensures { IfOk result (λ may. IsTrue may
        ↔ MayHappen (machine_in core.now) (events.Posted b request.now)) }
{
    let made = core.request()?;
    Ok(is_post(due, &made, b, request))
}

/// Whether that post is due.
fn may_post(core: &Core, b: BackendId, request: &Request) -> Result<bool, NoMemory>
    ensures { IfOk result (λ may. IsTrue may
        ↔ MayHappen (machine_in core.now) (events.Posted b request.now)) }
{
    match post_due(core.asks()) {
        Some(due) => posts(core, due, b, request),
        None => Ok(false),
    }
}

fn is_detach(due: BackendId, made: &Cause, b: BackendId, cause: &Cause, answer: GateAnswer) -> bool
    ensures { result ≡ is_detach due made.now b cause.now answer }
{
    due.number == b.number && (same_cause(made, cause) && is_seen_or_granted(&answer))
}

fn detaches(
    core: &Core,
    due: BackendId,
    b: BackendId,
    cause: &Cause,
    answer: GateAnswer,
) -> Result<bool, NoMemory>
    requires { detach_due (asked_of (next_action (machine_in core.now))) ≡ Some due }
    ensures { IfOk result (λ may. IsTrue may
        ↔ MayHappen (machine_in core.now) (events.Detached b cause.now answer)) }
{
    let made = core.cause()?;
    Ok(is_detach(due, &made, b, cause, answer))
}

/// Whether that detachment is due, and may be answered so.
fn may_detach(
    core: &Core,
    b: BackendId,
    cause: &Cause,
    answer: GateAnswer,
) -> Result<bool, NoMemory>
    ensures { IfOk result (λ may. IsTrue may
        ↔ MayHappen (machine_in core.now) (events.Detached b cause.now answer)) }
{
    match detach_due(core.asks()) {
        Some(due) => detaches(core, due, b, cause, answer),
        None => Ok(false),
    }
}

/// Whether an answer has these rows and no others, and this is their tag.
fn gives_rows(answer: &Answer, rows: &List<Row>, tag: Tag) -> bool
    ensures { result ≡ same_outcome (rows_reply (rows_in answer.now))
        (outcomes.Rows rows.now tag) }
{
    match answer {
        Answer::Rows(own) => same_rows(own, rows) && Tag::Select(own.len() as u64) == tag,
        Answer::Began
        | Answer::Count(_)
        | Answer::Locked
        | Answer::Done
        | Answer::Serial(_)
        | Answer::Refused(_) => {
            let none: List<Row> = List::new(rows.allocator());
            same_rows(&none, rows) && Tag::Select(0) == tag
        }
    }
}

/// The same of the answer at that place.
fn gives_rows_at(heard: &[Heard], place: usize, rows: &List<Row>, tag: Tag) -> bool
    ensures { result ≡ same_outcome (rows_reply (rows_in (heard_at heard.now place).answer))
        (outcomes.Rows rows.now tag) }
{
    match heard.get(place) {
        Some(heard) => gives_rows(&heard.answer, rows, tag),
        None => gives_rows(&Answer::Began, rows, tag),
    }
}

/// Whether the rows of the answer at that place are what becomes of the order.
fn replies_rows(heard: &[Heard], place: usize, outcome: &Outcome) -> bool
    ensures { result ≡ same_outcome (rows_reply (rows_in (heard_at heard.now place).answer))
        outcome.now }
{
    match outcome {
        Outcome::Rows { rows, tag } => gives_rows_at(heard, place, rows, *tag),
        Outcome::Done { .. } | Outcome::Settled | Outcome::Nodes(_) | Outcome::Error { .. } =>
            false,
    }
}

fn is_reply_due(standing: &Standing, outcome: &Outcome) -> bool
    ensures { result ≡ is_reply_due (machine_of standing.now).point outcome.now }
{
    match &standing.due {
        Due::ReplyDue(due) => same_outcome(due, outcome),
        Due::RowsDue(best) => replies_rows(standing.answers.as_slice(), *best, outcome),
        Due::Resting
        | Due::EnterDue(_)
        | Due::LookDue(_)
        | Due::PostDue(_, _)
        | Due::Waiting(_, _)
        | Due::LostDue(_, _, _, _)
        | Due::SplitDue { .. }
        | Due::ChooseDue(_)
        | Due::ShowDue
        | Due::LeaveSnapshotDue(_)
        | Due::UnwindDue(_)
        | Due::EnterCommitDue
        | Due::LeaveCommitDue(_)
        | Due::FinishDue(_)
        | Due::EndDue => false,
    }
}

fn is_reply(standing: &Standing, outcome: &Outcome, status: Status) -> bool
    ensures { result ≡ is_reply standing.now.status (machine_of standing.now).point outcome.now
        status }
{
    is_reply_due(standing, outcome) && standing.status == status
}

/// Whether that reply is due.
fn may_reply(core: &Core, outcome: &Outcome, status: Status) -> bool
    ensures { IsTrue result
        ↔ MayHappen (machine_in core.now) (events.Replied outcome.now status) }
{
    is_reply(core.standing(), outcome, status)
}

/// Whether the session is to end.
fn may_end(core: &Core) -> bool
    ensures { IsTrue result ↔ MayHappen (machine_in core.now) events.Ended }
{
    is_end_due(core.asks())
}

/// Whether the session's rules let that event come.
pub(crate) fn takes(core: &Core, event: &SessionEvent) -> Result<bool, NoMemory>
    ensures { IfOk result (λ may. IsTrue may ↔ MayHappen (machine_in core.now) event.now) }
{
    match event {
        SessionEvent::Ordered(order) => Ok(core.may_order(&order.body)),
        SessionEvent::Called { call, answer } => Ok(may_call(core, *call, *answer)),
        SessionEvent::Posted { b, request } => may_post(core, *b, request),
        SessionEvent::Taken { b, answer } => Ok(core.may_hear(*b, answer)),
        SessionEvent::Faulted { b, before, after } => Ok(core.may_lose(*b, *before, *after)),
        SessionEvent::Detached { b, cause, answer } => may_detach(core, *b, cause, *answer),
        SessionEvent::Swapped { .. } => Ok(false),
        SessionEvent::Replied { outcome, status } => Ok(may_reply(core, outcome, *status)),
        SessionEvent::Ended => Ok(may_end(core)),
    }
}
