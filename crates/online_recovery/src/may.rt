//! Which events may happen at a recovery, as tests.
ghost use Rattle.online_recovery.specs.State;
ghost use Rattle.std.specs.Prelude.{◌≡◌, ◌==◌, IfOk};
ghost use Rattle.session_machine.specs.Allowed.{is_seen, is_granted, is_granted_or_spent};
ghost use Rattle.session_machine.specs.Forms.{is_of_opening, is_of_lock, is_of_end};
ghost use Rattle.online_recovery.specs.Allowed.{is_granted_or_held, answers_call, may_leave_end};
ghost use Rattle.online_recovery.specs.Testing.{is_of_serial, is_of, rose};

use crate::ask::RecoveryAsk;
use crate::hand::request_of;
use crate::rules::{backend_at, side_of};
use crate::standing::{Due, Ending, Side, Standing};
use backend_trait::{Answer, Request, is_of_run};
use pool_base::{BackendId, GateAnswer, GateCall, NoMemory};
use session_machine::is_seen_or_granted;
use std::alloc::Global;

fn is_seen(answer: &GateAnswer) -> bool
    ensures { result ≡ is_seen answer.now }
{
    matches!(answer, GateAnswer::Seen(_))
}

fn is_granted(answer: &GateAnswer) -> bool
    ensures { result ≡ is_granted answer.now }
{
    matches!(answer, GateAnswer::Granted(_))
}

fn is_granted_or_spent(answer: &GateAnswer) -> bool
    ensures { result ≡ is_granted_or_spent answer.now }
{
    matches!(answer, GateAnswer::Granted(_) | GateAnswer::Spent)
}

fn is_granted_or_held(answer: &GateAnswer) -> bool
    ensures { result ≡ is_granted_or_held answer.now }
{
    matches!(answer, GateAnswer::Granted(_) | GateAnswer::Held(_))
}

/// Whether the gate may answer a call of a recovery so.
fn answers_call(call: GateCall, answer: &GateAnswer) -> bool
    ensures { result ≡ answers_call call answer.now }
{
    match call {
        GateCall::Look => is_seen(answer),
        GateCall::EnterSnapshot | GateCall::Attach { .. } => is_granted_or_spent(answer),
        GateCall::StartCopy => is_granted_or_held(answer),
        GateCall::LeaveSnapshot
        | GateCall::Finish
        | GateCall::AskQuiet
        | GateCall::EnterQuiet
        | GateCall::LeaveQuiet => is_granted(answer),
        GateCall::EnterCommit { .. } | GateCall::LeaveCommit | GateCall::Detach { .. } => false,
    }
}

fn is_of_opening(answer: &Answer) -> bool
    ensures { result ≡ is_of_opening answer.now }
{
    matches!(answer, Answer::Began | Answer::Refused(_))
}

fn is_of_lock(answer: &Answer) -> bool
    ensures { result ≡ is_of_lock answer.now }
{
    matches!(answer, Answer::Locked | Answer::Refused(_))
}

fn is_of_end(answer: &Answer) -> bool
    ensures { result ≡ is_of_end answer.now }
{
    matches!(answer, Answer::Done)
}

fn is_of_serial(answer: &Answer) -> bool
    ensures { result ≡ is_of_serial answer.now }
{
    match answer {
        Answer::Serial(next) => 1 <= *next,
        Answer::Began
        | Answer::Rows(_)
        | Answer::Count(_)
        | Answer::Locked
        | Answer::Done
        | Answer::Refused(_) => false,
    }
}

/// Whether an answer has the form of a request.
fn is_of(request: &Request, answer: &Answer) -> bool
    ensures { result ≡ is_of request.now answer.now }
{
    match request {
        Request::TakeSnapshot => is_of_opening(answer),
        Request::Run(checked) => is_of_run(checked, answer),
        Request::Lock(_) => is_of_lock(answer),
        Request::ReadSerial(_) => is_of_serial(answer),
        Request::Commit | Request::Rollback | Request::SetSerial(_, _) => is_of_end(answer),
    }
}

/// Whether a count of faults rose, or can rise no more.
fn has_risen(before: u64, after: u64) -> bool
    ensures { result ≡ rose before after }
{
    before < after || 18_446_744_073_709_551_615 <= after
}

/// Whether the client may be gone at an end: a target that is attached is replied first.
fn may_leave_end(ending: Ending) -> bool
    ensures { result ≡ may_leave_end ending }
{
    match ending {
        Ending::Attached => false,
        Ending::Refused(_) | Ending::Leaves => true,
    }
}

impl Standing {
    ghost use Rattle.online_recovery.specs.Allowed.{is_resting, may_leave};
    ghost use Rattle.online_recovery.specs.Rules.{next_action};
    ghost use Rattle.online_recovery.specs.Asking.{asked_of};
    ghost use Rattle.online_recovery.specs.Testing.{answers_ask, is_heard, is_lost};

    pub(crate) fn is_resting(&self) -> bool
        ensures { result ≡ is_resting self.now.due }
    {
        matches!(&self.due, Due::Resting)
    }

    /// Whether the client may be gone where the recovery stands.
    pub(crate) fn may_leave(&self) -> bool
        ensures { result ≡ may_leave self.now.due }
    {
        match &self.due {
            Due::Resting | Due::Waiting(_) | Due::Undoing(_, _) => false,
            Due::LostDue(ending, _, _) | Due::Closing(ending) => may_leave_end(*ending),
            Due::LookDue(_)
            | Due::StartDue
            | Due::SwapDue
            | Due::EnterDue
            | Due::PostDue(_)
            | Due::ShowDue(_, _)
            | Due::LeaveSnapshotDue
            | Due::FinishDue
            | Due::AskDue
            | Due::QuietDue
            | Due::AttachDue => true,
        }
    }

    /// Whether this is an answer of the gate to what is due.
    pub(crate) fn is_answered(&self, answer: &GateAnswer) -> bool
        ensures { result ≡ answers_ask (asked_of (next_action self.now)) answer.now }
    {
        match self.asks() {
            RecoveryAsk::Gate(call) => answers_call(call, answer),
            RecoveryAsk::Detach(_) => is_seen_or_granted(answer),
            RecoveryAsk::Rest
            | RecoveryAsk::Swap(_)
            | RecoveryAsk::Post(_)
            | RecoveryAsk::WaitFor(_)
            | RecoveryAsk::Reply
            | RecoveryAsk::End => false,
        }
    }

    /// Whether that backend is the one of a side.
    fn is_at(&self, side: Side, b: BackendId) -> bool
        ensures { result ≡ ((Rattle.online_recovery.specs.State.backend_at self.now.held
            side).number == b.number) }
    {
        backend_at(&self.held, side).number == b.number
    }

    /// Whether this is an answer of the backend that is waited for. The columns of a table's rows
    /// want memory.
    pub(crate) fn is_heard(
        &self,
        alloc: Global,
        b: BackendId,
        answer: &Answer,
    ) -> Result<bool, NoMemory>
        ensures { IfOk result (λ heard. heard ≡ is_heard self.now.held self.now.due b
            answer.now) }
    {
        match &self.due {
            Due::Waiting(task) => {
                let request = request_of(alloc, &self.held.layout, task)?;
                let is_of = is_of(&request, answer);
                drop(request);
                Ok(self.is_at(side_of(task), b) && is_of)
            }
            Due::Undoing(side, _) => Ok(self.is_at(*side, b) && is_of_end(answer)),
            _ => Ok(false),
        }
    }

    /// Whether this is the loss of the backend that is waited for.
    pub(crate) fn is_lost(&self, b: BackendId, before: u64, after: u64) -> bool
        ensures { result ≡ is_lost self.now.held self.now.due b before after }
    {
        match &self.due {
            Due::Waiting(task) => self.is_at(side_of(task), b) && has_risen(before, after),
            Due::Undoing(side, _) => self.is_at(*side, b) && has_risen(before, after),
            _ => false,
        }
    }
}
