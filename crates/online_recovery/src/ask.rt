//! What a recovery is due to do next, as a small value.
ghost use Rattle.std.specs.Prelude.{◌≡◌};
ghost use Rattle.online_recovery.specs.State.{outcome_of};
ghost use Rattle.online_recovery.specs.Rules.{closing_action, last_action, next_action};
ghost use Rattle.online_recovery.specs.Asking.{asked_of};

use crate::rules::{backend_at, owed, side_of};
use crate::standing::{Due, Ending, Owed, Standing};
use pool_base::{BackendId, GateCall};

/// What is due, without its large parts, which are made where they are used.
#[derive(Clone, Copy)]
pub enum RecoveryAsk {
    /// Nothing: an order may come.
    Rest,
    /// A call of the gate. EnterSnapshot and EnterQuiet that are held are made again.
    Gate(GateCall),
    /// A blank backend is to stand in that one's place.
    Swap(BackendId),
    /// The gate is to be asked to detach it, for the cause.
    Detach(BackendId),
    /// The request is to be posted there.
    Post(BackendId),
    /// An answer is to come from there.
    WaitFor(BackendId),
    /// The reply to the client.
    Reply,
    /// The session ends.
    End,
}

/// The reply, or the end.
fn last_ask(ending: Ending) -> RecoveryAsk
    ensures { result ≡ asked_of (last_action (outcome_of ending)) }
{
    match ending {
        Ending::Attached | Ending::Refused(_) => RecoveryAsk::Reply,
        Ending::Leaves => RecoveryAsk::End,
    }
}

impl Standing {
    fn closing_ask(&self, ending: Ending, owed: Owed) -> RecoveryAsk
        ensures { result ≡ asked_of (closing_action self.now.held ending owed) }
    {
        match owed {
            Owed::Transaction(side) => RecoveryAsk::Post(backend_at(&self.held, side)),
            Owed::Snapshot => RecoveryAsk::Gate(GateCall::LeaveSnapshot),
            Owed::LiveTransaction => RecoveryAsk::Gate(GateCall::Finish),
            Owed::TheQuiet => RecoveryAsk::Gate(GateCall::LeaveQuiet),
            Owed::Nothing => last_ask(ending),
        }
    }

    pub(crate) fn asks(&self) -> RecoveryAsk
        ensures { result ≡ asked_of (next_action self.now) }
    {
        let held = &self.held;
        match &self.due {
            Due::Resting => RecoveryAsk::Rest,
            Due::LookDue(_) | Due::ShowDue(_, _) => RecoveryAsk::Gate(GateCall::Look),
            Due::StartDue => RecoveryAsk::Gate(GateCall::StartCopy),
            Due::SwapDue => RecoveryAsk::Swap(held.target),
            Due::EnterDue => RecoveryAsk::Gate(GateCall::EnterSnapshot),
            Due::PostDue(task) => RecoveryAsk::Post(backend_at(held, side_of(task))),
            Due::Waiting(task) => RecoveryAsk::WaitFor(backend_at(held, side_of(task))),
            Due::LeaveSnapshotDue => RecoveryAsk::Gate(GateCall::LeaveSnapshot),
            Due::FinishDue => RecoveryAsk::Gate(GateCall::Finish),
            Due::AskDue => RecoveryAsk::Gate(GateCall::AskQuiet),
            Due::QuietDue => RecoveryAsk::Gate(GateCall::EnterQuiet),
            Due::AttachDue => RecoveryAsk::Gate(GateCall::Attach { b: held.target }),
            Due::LostDue(_, _, _) => RecoveryAsk::Detach(held.source),
            Due::Closing(ending) => self.closing_ask(*ending, owed(held)),
            Due::Undoing(side, _) => RecoveryAsk::WaitFor(backend_at(held, *side)),
        }
    }
}
