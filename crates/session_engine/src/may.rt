//! Which events may happen at a session, as tests.
ghost use Rattle.std.specs.Prelude.{◌≡◌, ◌↔◌, IsTrue};
ghost use Rattle.session_engine.specs.Meaning.{session_of, machine_of};
ghost use Rattle.session_engine.specs.Testing.{rose};

use crate::ask::Ask;
use crate::due::Due;
use crate::standing::Standing;
use backend_trait::Answer;
use pool_base::{BackendId, GateAnswer};
use session_machine::{answers_call, fits, has_its_bit, is_of_stage, is_seen_or_granted, may_stop};
use session_orders::OrderBody;

/// Whether a count of faults rose, or can rise no more.
fn has_risen(before: u64, after: u64) -> bool
    ensures { result ≡ rose before after }
{
    before < after || 18_446_744_073_709_551_615 <= after
}

impl Standing {
    ghost use Rattle.session_machine.specs.Allowed.{is_resting, fits_at_rest, may_leave, may_order, TakesOrder};
    ghost use Rattle.session_machine.specs.Rules.{next_action};
    ghost use Rattle.session_engine.specs.Handing.{asked_of};
    ghost use Rattle.session_engine.specs.Testing.{answers_ask, is_heard, is_lost};

    fn is_resting(&self) -> bool
        ensures { result ≡ is_resting (machine_of self.now).point }
    {
        matches!(&self.due, Due::Resting)
    }

    fn fits_at_rest(&self, body: &OrderBody) -> bool
        ensures { result ≡ fits_at_rest (is_resting (machine_of self.now).point) self.now.status
            self.now.gate body.now }
    {
        if !self.is_resting() {
            return false;
        }
        fits(self.status, self.gate, body)
    }

    /// Whether the session may leave where it stands.
    pub(crate) fn may_leave(&self) -> bool
        ensures { result ≡ may_leave (machine_of self.now).point }
    {
        match &self.due {
            Due::LookDue(stage)
            | Due::PostDue(stage, _)
            | Due::LostDue(stage, _, _, _)
            | Due::SplitDue { stage, .. } => may_stop(stage),
            Due::Waiting(_, _) | Due::LeaveCommitDue(_) => false,
            Due::Resting
            | Due::EnterDue(_)
            | Due::ChooseDue(_)
            | Due::ShowDue
            | Due::LeaveSnapshotDue(_)
            | Due::UnwindDue(_)
            | Due::EnterCommitDue
            | Due::FinishDue(_)
            | Due::ReplyDue(_)
            | Due::RowsDue(_)
            | Due::EndDue => true,
        }
    }

    /// Whether an order may come here, whatever it writes.
    fn may_come(&self, body: &OrderBody) -> bool
        ensures { result ≡ may_order (session_of self.now) (machine_of self.now).point body.now }
    {
        match body {
            OrderBody::Leave => self.may_leave(),
            OrderBody::Recover(_) => false,
            OrderBody::Statement(_)
            | OrderBody::Begin
            | OrderBody::Commit
            | OrderBody::Rollback
            | OrderBody::Settle
            | OrderBody::ShowNodes
            | OrderBody::Refuse { .. } => self.fits_at_rest(body),
        }
    }

    /// Whether an order is taken here.
    pub(crate) fn takes_order(&self, body: &OrderBody) -> bool
        ensures { IsTrue result ↔ TakesOrder (machine_of self.now) body.now }
    {
        self.may_come(body) && has_its_bit(body)
    }

    /// Whether this is an answer of the gate to what is due.
    pub(crate) fn is_answered(&self, answer: &GateAnswer) -> bool
        ensures { result ≡ answers_ask (asked_of (next_action (machine_of self.now))) answer.now }
    {
        match self.asks() {
            Ask::Gate(call) => answers_call(call, answer),
            Ask::Detach(_) => is_seen_or_granted(answer),
            Ask::Rest | Ask::Post(_) | Ask::WaitFor(_) | Ask::Reply | Ask::End => false,
        }
    }

    /// Whether this is an answer of the backend that is waited for.
    pub(crate) fn is_heard(&self, b: BackendId, answer: &Answer) -> bool
        ensures { result ≡ is_heard (machine_of self.now).point b answer.now }
    {
        let Due::Waiting(stage, asked) = &self.due else {
            return false;
        };
        asked.number == b.number && is_of_stage(stage, answer)
    }

    /// Whether this is the loss of the backend that is waited for.
    pub(crate) fn is_lost(&self, b: BackendId, before: u64, after: u64) -> bool
        ensures { result ≡ is_lost (machine_of self.now).point b before after }
    {
        let Due::Waiting(_, asked) = &self.due else {
            return false;
        };
        asked.number == b.number && has_risen(before, after)
    }
}
