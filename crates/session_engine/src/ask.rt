//! What a session is due to do next, as a small value.
ghost use Rattle.std.specs.Prelude.{◌≡◌};
ghost use Rattle.session_engine.specs.Meaning.{machine_of};
ghost use Rattle.session_engine.specs.Places.{heard_at};

use crate::answers::Answers;
use crate::due::Due;
use crate::standing::Standing;
use pool_base::{BackendId, GateCall};
use session_machine::tables_of;

/// What is due, without its large parts, which are made where they are used.
#[derive(Clone, Copy)]
pub enum Ask {
    /// Nothing: an order may come.
    Rest,
    /// A call of the gate. One that is held is made again.
    Gate(GateCall),
    /// The request is to be posted there.
    Post(BackendId),
    /// An answer is to come from there.
    WaitFor(BackendId),
    /// The gate is to be asked to detach it, for the cause.
    Detach(BackendId),
    /// The reply to the client.
    Reply,
    /// The session ends.
    End,
}

/// The backend of the answer at that place.
#[tactic(auto, using(crate::proofs::Hands::first_at))]
fn backend_at(heard: &Answers, place: usize) -> BackendId
    ensures { result ≡ (heard_at heard.now.items.items place).b }
{
    let Some(found) = heard.get(place) else {
        return BackendId { number: 0 };
    };
    found.b
}

impl Standing {
    ghost use Rattle.session_machine.specs.Rules.{next_action};
    ghost use Rattle.session_engine.specs.Handing.{asked_of};

    pub(crate) fn asks(&self) -> Ask
        ensures { result ≡ asked_of (next_action (machine_of self.now)) }
    {
        match &self.due {
            Due::Resting => Ask::Rest,
            Due::EnterDue(_) => Ask::Gate(GateCall::EnterSnapshot),
            Due::LookDue(_) | Due::ChooseDue(_) | Due::ShowDue => Ask::Gate(GateCall::Look),
            Due::LeaveSnapshotDue(_) | Due::UnwindDue(_) => Ask::Gate(GateCall::LeaveSnapshot),
            Due::EnterCommitDue => {
                let tables = tables_of(self.gate);
                Ask::Gate(GateCall::EnterCommit { tables })
            }
            Due::LeaveCommitDue(_) => Ask::Gate(GateCall::LeaveCommit),
            Due::FinishDue(_) => Ask::Gate(GateCall::Finish),
            Due::PostDue(_, b) => Ask::Post(*b),
            Due::Waiting(_, b) => Ask::WaitFor(*b),
            Due::LostDue(_, b, _, _) => Ask::Detach(*b),
            Due::SplitDue { own, .. } => Ask::Detach(backend_at(&self.answers, *own)),
            Due::ReplyDue(_) | Due::RowsDue(_) => Ask::Reply,
            Due::EndDue => Ask::End,
        }
    }
}
