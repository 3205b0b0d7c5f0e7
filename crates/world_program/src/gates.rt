//! What the gate gives to a call, and the gate behind an event of a session.
ghost use Rattle.std.specs.Prelude.{◌≡◌, ◌↔◌, IsTrue, IfSome};
ghost use Rattle.snapshot_gate.specs.Function.{MayCall, step};
ghost use Rattle.one_copy_model.specs.World.{GateGives, gate_after};
ghost use Rattle.world_program.specs.Deciding.{may_call, same_view, same_gate};
ghost use Rattle.world_program.specs.Steps.{MayMove};

use pool_base::{GateAnswer, GateCall, View};
use session_machine::SessionEvent;
use snapshot_gate::{Gate, GateState};

fn meets(state: GateState, call: GateCall) -> bool
    ensures { result ≡ may_call state call }
{
    match call {
        GateCall::Look | GateCall::EnterSnapshot | GateCall::Detach { .. } | GateCall::StartCopy =>
            true,
        GateCall::LeaveSnapshot => 0 < state.snaps,
        GateCall::EnterCommit { .. } | GateCall::Finish => state.commits < state.live,
        GateCall::LeaveCommit => 0 < state.commits,
        GateCall::AskQuiet => state.quiet == 1,
        GateCall::EnterQuiet => state.quiet == 2,
        GateCall::Attach { b } => state.quiet == 3 && !state.attached.has(b),
        GateCall::LeaveQuiet => 0 < state.quiet,
    }
}

/// Whether a call meets its condition at the gate.
fn may_call(state: GateState, call: GateCall) -> bool
    ensures { IsTrue result ↔ MayCall state call }
{
    meets(state, call)
}

fn same_view(x: View, y: View) -> bool
    ensures { result ≡ same_view x y }
{
    x.attached.bits == y.attached.bits
        && (x.epoch == y.epoch && (x.touched == y.touched && x.done == y.done))
}

fn same_gate(given: GateAnswer, expected: GateAnswer) -> bool
    ensures { result ≡ same_gate given expected }
{
    match given {
        GateAnswer::Seen(x) => match expected {
            GateAnswer::Seen(y) => same_view(x, y),
            GateAnswer::Granted(_) | GateAnswer::Held(_) | GateAnswer::Spent => false,
        },
        GateAnswer::Granted(x) => match expected {
            GateAnswer::Granted(y) => same_view(x, y),
            GateAnswer::Seen(_) | GateAnswer::Held(_) | GateAnswer::Spent => false,
        },
        GateAnswer::Held(n) => match expected {
            GateAnswer::Held(m) => n == m,
            GateAnswer::Seen(_) | GateAnswer::Granted(_) | GateAnswer::Spent => false,
        },
        GateAnswer::Spent => match expected {
            GateAnswer::Spent => true,
            GateAnswer::Seen(_) | GateAnswer::Granted(_) | GateAnswer::Held(_) => false,
        },
    }
}

/// Whether the gate gives just that answer to a call that meets its condition.
fn answers(gate: &Gate, call: GateCall, answer: GateAnswer) -> bool
    requires { MayCall gate.now.state call }
    ensures { result ≡ same_gate (step gate.now.state call).1 answer }
{
    let mut tried = *gate;
    same_gate(tried.step(call), answer)
}

/// Whether the call meets its condition, and the gate gives just that answer.
pub(crate) fn gate_gives(gate: &Gate, call: GateCall, answer: GateAnswer) -> bool
    ensures { IsTrue result ↔ GateGives gate.now.state call answer }
{
    if !may_call(gate.state, call) {
        return false;
    }
    answers(gate, call, answer)
}

/// What the gate gives to a call, where the call meets its condition.
pub fn gate_answer(gate: &Gate, call: GateCall) -> Option<GateAnswer>
    ensures { IfSome result (GateGives gate.now.state call) }
{
    if !may_call(gate.state, call) {
        return None;
    }
    let mut tried = *gate;
    Some(tried.step(call))
}

/// The gate behind a call.
fn called(gate: &mut Gate, call: GateCall)
    requires { MayCall gate.old.state call }
    ensures { gate.new.state ≡ (step gate.old.state call).0 }
{
    let _answer = gate.step(call);
}

/// The gate behind an event of a session.
pub(crate) fn gate_moved(gate: &mut Gate, event: &SessionEvent)
    requires { MayMove gate.old.state event.now }
    ensures { gate.new.state ≡ gate_after gate.old.state event.now }
{
    match event {
        SessionEvent::Called { call, .. } => called(gate, *call),
        SessionEvent::Detached { b, .. } => called(gate, GateCall::Detach { b: *b }),
        SessionEvent::Ordered(_)
        | SessionEvent::Posted { .. }
        | SessionEvent::Taken { .. }
        | SessionEvent::Faulted { .. }
        | SessionEvent::Swapped { .. }
        | SessionEvent::Replied { .. }
        | SessionEvent::Ended => {}
    }
}
