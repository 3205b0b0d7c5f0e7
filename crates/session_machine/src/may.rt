//! Where an order, an answer of the gate and an answer of a backend may come, as tests.
ghost use Rattle.std.specs.Prelude.{◌≡◌, ◌↔◌, IsTrue};
ghost use Rattle.session_machine.specs.declared.status.Status.TheVariants as statuses;
ghost use Rattle.session_machine.specs.Allowed.{is_out, fits, may_stop, is_seen, is_granted, is_granted_or_spent, is_seen_or_granted, answers_call, HasItsBit};
ghost use Rattle.session_machine.specs.Forms.{is_of_opening, is_of_lock, is_of_end, is_of_stage};

use crate::class::has_bit;
use crate::machine::{GatePhase, Stage};
use crate::status::Status;
use backend_trait::{Answer, is_of_run};
use pool_base::{GateAnswer, GateCall};
use session_orders::OrderBody;

fn is_out(phase: GatePhase) -> bool
    ensures { result ≡ is_out phase }
{
    match phase {
        GatePhase::Out => true,
        GatePhase::InSnapshot | GatePhase::Live(_, _) | GatePhase::InCommit => false,
    }
}

/// Whether a session may leave in that stage.
pub fn may_stop(stage: &Stage) -> bool
    ensures { result ≡ may_stop stage.now }
{
    match stage {
        Stage::Opening(_)
        | Stage::Reading(_, _)
        | Stage::Running(_)
        | Stage::Locking(_, _)
        | Stage::Closing
        | Stage::RollingBack(_) => true,
        Stage::Inserting(_, posted) => {
            if *posted {
                return false;
            }
            true
        }
        Stage::Committing => false,
    }
}

/// Whether an order fits outside a block. A live transaction takes no BEGIN, COMMIT and ROLLBACK.
fn fits_outside(phase: GatePhase, body: &OrderBody) -> bool
    ensures { result ≡ fits statuses.Idle phase body.now }
{
    match body {
        OrderBody::Begin | OrderBody::Commit | OrderBody::Rollback => is_out(phase),
        OrderBody::Statement(_)
        | OrderBody::Settle
        | OrderBody::ShowNodes
        | OrderBody::Refuse { .. }
        | OrderBody::Leave => true,
        OrderBody::Recover(_) => false,
    }
}

/// Whether an order fits in a block.
fn fits_block(body: &OrderBody) -> bool
    ensures { (phase : GatePhase) → result ≡ fits statuses.InBlock phase body.now }
{
    match body {
        OrderBody::Statement(_)
        | OrderBody::Begin
        | OrderBody::Commit
        | OrderBody::Rollback
        | OrderBody::Settle
        | OrderBody::ShowNodes
        | OrderBody::Refuse { .. }
        | OrderBody::Leave => true,
        OrderBody::Recover(_) => false,
    }
}

/// Whether an order fits in a block that has failed: its end alone.
fn fits_failed(body: &OrderBody) -> bool
    ensures { (phase : GatePhase) → result ≡ fits statuses.Failed phase body.now }
{
    match body {
        OrderBody::Commit
        | OrderBody::Rollback
        | OrderBody::Settle
        | OrderBody::Refuse { .. }
        | OrderBody::Leave => true,
        OrderBody::Statement(_) | OrderBody::Begin | OrderBody::ShowNodes | OrderBody::Recover(_) =>
            false,
    }
}

/// Whether an order fits the status of a session and its phase at the gate.
pub fn fits(status: Status, phase: GatePhase, body: &OrderBody) -> bool
    ensures { result ≡ fits status phase body.now }
{
    match status {
        Status::Idle => fits_outside(phase, body),
        Status::InBlock => fits_block(body),
        Status::Failed => fits_failed(body),
    }
}

/// Whether the table that a statement writes is one of the 64 that a catalogue may have.
pub fn has_its_bit(body: &OrderBody) -> bool
    ensures { IsTrue result ↔ HasItsBit body.now }
{
    match body {
        OrderBody::Statement(checked) => has_bit(checked.get()),
        OrderBody::Begin
        | OrderBody::Commit
        | OrderBody::Rollback
        | OrderBody::Settle
        | OrderBody::ShowNodes
        | OrderBody::Recover(_)
        | OrderBody::Refuse { .. }
        | OrderBody::Leave => true,
    }
}

fn is_seen(answer: &GateAnswer) -> bool
    ensures { result ≡ is_seen answer.now }
{
    match answer {
        GateAnswer::Seen(_) => true,
        GateAnswer::Granted(_) | GateAnswer::Held(_) | GateAnswer::Spent => false,
    }
}

fn is_granted(answer: &GateAnswer) -> bool
    ensures { result ≡ is_granted answer.now }
{
    match answer {
        GateAnswer::Granted(_) => true,
        GateAnswer::Seen(_) | GateAnswer::Held(_) | GateAnswer::Spent => false,
    }
}

fn is_granted_or_spent(answer: &GateAnswer) -> bool
    ensures { result ≡ is_granted_or_spent answer.now }
{
    match answer {
        GateAnswer::Granted(_) | GateAnswer::Spent => true,
        GateAnswer::Seen(_) | GateAnswer::Held(_) => false,
    }
}

/// Whether the gate may answer a detachment so.
pub fn is_seen_or_granted(answer: &GateAnswer) -> bool
    ensures { result ≡ is_seen_or_granted answer.now }
{
    match answer {
        GateAnswer::Seen(_) | GateAnswer::Granted(_) => true,
        GateAnswer::Held(_) | GateAnswer::Spent => false,
    }
}

/// Whether the gate may answer a call of a session so.
pub fn answers_call(call: GateCall, answer: &GateAnswer) -> bool
    ensures { result ≡ answers_call call answer.now }
{
    match call {
        GateCall::Look => is_seen(answer),
        GateCall::EnterSnapshot => is_granted_or_spent(answer),
        GateCall::LeaveSnapshot
        | GateCall::EnterCommit { .. }
        | GateCall::LeaveCommit
        | GateCall::Finish => is_granted(answer),
        GateCall::Detach { .. }
        | GateCall::StartCopy
        | GateCall::AskQuiet
        | GateCall::EnterQuiet
        | GateCall::Attach { .. }
        | GateCall::LeaveQuiet => false,
    }
}

fn is_of_opening(answer: &Answer) -> bool
    ensures { result ≡ is_of_opening answer.now }
{
    match answer {
        Answer::Began | Answer::Refused(_) => true,
        Answer::Rows(_) | Answer::Count(_) | Answer::Locked | Answer::Done | Answer::Serial(_) =>
            false,
    }
}

fn is_of_lock(answer: &Answer) -> bool
    ensures { result ≡ is_of_lock answer.now }
{
    match answer {
        Answer::Locked | Answer::Refused(_) => true,
        Answer::Began | Answer::Rows(_) | Answer::Count(_) | Answer::Done | Answer::Serial(_) =>
            false,
    }
}

fn is_of_end(answer: &Answer) -> bool
    ensures { result ≡ is_of_end answer.now }
{
    match answer {
        Answer::Done => true,
        Answer::Began
        | Answer::Rows(_)
        | Answer::Count(_)
        | Answer::Locked
        | Answer::Serial(_)
        | Answer::Refused(_) => false,
    }
}

/// Whether an answer has the form of what a stage asks.
pub fn is_of_stage(stage: &Stage, answer: &Answer) -> bool
    ensures { result ≡ is_of_stage stage.now answer.now }
{
    match stage {
        Stage::Opening(_) => is_of_opening(answer),
        Stage::Reading(work, _) | Stage::Running(work) | Stage::Inserting(work, _) => {
            is_of_run(work.statement.get(), answer)
        }
        Stage::Locking(_, _) => is_of_lock(answer),
        Stage::Committing | Stage::Closing | Stage::RollingBack(_) => is_of_end(answer),
    }
}
