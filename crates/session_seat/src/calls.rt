//! Which calls the gate takes, and at which mark one stops a session.
ghost use Rattle.std.specs.Prelude.{◌≡◌, ◌↔◌, IsTrue};
ghost use Rattle.snapshot_gate.specs.Function.{MayCall};
ghost use Rattle.session_seat.specs.Dues.{entry_mark, mark_of};

use pgproto::Mark;
use pool_base::{GateAnswer, GateCall};
use snapshot_gate::GateState;

/// Whether a gate that stands so takes the call.
pub fn may_call(state: &GateState, call: GateCall) -> bool
    ensures { IsTrue result ↔ MayCall state.now call }
{
    match call {
        GateCall::Look | GateCall::EnterSnapshot | GateCall::Detach { .. } | GateCall::StartCopy =>
            true,
        GateCall::LeaveSnapshot => state.snaps > 0,
        GateCall::EnterCommit { .. } | GateCall::Finish => state.commits < state.live,
        GateCall::LeaveCommit => state.commits > 0,
        GateCall::AskQuiet => state.quiet == 1,
        GateCall::EnterQuiet => state.quiet == 2,
        GateCall::Attach { b } => state.quiet == 3 && !state.attached.has(b),
        GateCall::LeaveQuiet => state.quiet > 0,
    }
}

/// At which mark a call of the gate stops a session: the entries that are granted have one.
pub fn mark_of(call: GateCall, answer: GateAnswer) -> Option<Mark>
    ensures { result ≡ mark_of call answer }
{
    match answer {
        GateAnswer::Granted(_) => entry_mark(call),
        GateAnswer::Seen(_) | GateAnswer::Held(_) | GateAnswer::Spent => None,
    }
}

fn entry_mark(call: GateCall) -> Option<Mark>
    ensures { result ≡ entry_mark call }
{
    match call {
        GateCall::EnterSnapshot => Some(Mark::Snapshot),
        GateCall::EnterCommit { .. } => Some(Mark::Commit),
        GateCall::Look
        | GateCall::LeaveSnapshot
        | GateCall::LeaveCommit
        | GateCall::Finish
        | GateCall::Detach { .. }
        | GateCall::StartCopy
        | GateCall::AskQuiet
        | GateCall::EnterQuiet
        | GateCall::Attach { .. }
        | GateCall::LeaveQuiet => None,
    }
}
