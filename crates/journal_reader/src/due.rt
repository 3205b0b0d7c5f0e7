//! The event of a session that the world leaves no choice of.
ghost use Rattle.std.specs.Prelude.{◌≡◌, Some};
ghost use Rattle.session_machine.specs.Rules.{next_action};
ghost use Rattle.session_engine.specs.Cores.{machine_in};
ghost use Rattle.session_engine.specs.Handing.{IsPost, IsDetach};

use crate::kind::Kind;
use crate::replies::outcome_due;
use backend_trait::Answer;
use pool_base::{BackendId, GateCall, NoMemory, SessionId};
use session_engine::{Ask, Core};
use session_machine::SessionEvent;
use snapshot_gate::Gate;
use world_program::{Replica, Replicas, gate_answer};

/// The call that is due, with what the gate gives.
fn called(gate: &Gate, call: GateCall) -> Option<SessionEvent> {
    match gate_answer(gate, call) {
        Some(answer) => Some(SessionEvent::Called { call, answer }),
        None => None,
    }
}

fn gate_due(gate: &Gate, core: &Core) -> Option<SessionEvent> {
    match core.asks() {
        Ask::Gate(call) => called(gate, call),
        Ask::Rest | Ask::Post(_) | Ask::WaitFor(_) | Ask::Detach(_) | Ask::Reply | Ask::End => None,
    }
}

/// The post that is due.
fn posted(core: &Core, b: BackendId) -> Result<Option<SessionEvent>, NoMemory>
    requires { IsPost (next_action (machine_in core.now)) }
{
    let request = core.request()?;
    Ok(Some(SessionEvent::Posted { b, request }))
}

fn post_due(core: &Core) -> Result<Option<SessionEvent>, NoMemory> {
    match core.asks() {
        Ask::Post(b) => posted(core, b),
        Ask::Rest | Ask::Gate(_) | Ask::WaitFor(_) | Ask::Detach(_) | Ask::Reply | Ask::End => Ok(
            None,
        ),
    }
}

fn taken(b: BackendId, mailed: &Option<Answer>) -> Result<Option<SessionEvent>, NoMemory> {
    match mailed {
        Some(answer) => Ok(Some(SessionEvent::Taken {
            b,
            answer: answer.clone()?,
        })),
        None => Ok(None),
    }
}

/// The answer that the backend has given to the session.
fn taken_from(
    replica: &Replica,
    s: SessionId,
    b: BackendId,
) -> Result<Option<SessionEvent>, NoMemory> {
    taken(b, &replica.mail[s.number as usize])
}

fn take_due(w: &Replicas, s: SessionId, core: &Core) -> Result<Option<SessionEvent>, NoMemory> {
    match core.asks() {
        Ask::WaitFor(b) => taken_from(&w.backends[b.number as usize], s, b),
        Ask::Rest | Ask::Gate(_) | Ask::Post(_) | Ask::Detach(_) | Ask::Reply | Ask::End => Ok(
            None,
        ),
    }
}

/// The detachment that is due, with what the gate gives.
fn detached(gate: &Gate, core: &Core, b: BackendId) -> Result<Option<SessionEvent>, NoMemory>
    requires { IsDetach (next_action (machine_in core.now)) }
{
    let Some(answer) = gate_answer(gate, GateCall::Detach { b }) else {
        return Ok(None);
    };
    let cause = core.cause()?;
    Ok(Some(SessionEvent::Detached { b, cause, answer }))
}

fn detach_due(gate: &Gate, core: &Core) -> Result<Option<SessionEvent>, NoMemory> {
    match core.asks() {
        Ask::Detach(b) => detached(gate, core, b),
        Ask::Rest | Ask::Gate(_) | Ask::Post(_) | Ask::WaitFor(_) | Ask::Reply | Ask::End => Ok(
            None,
        ),
    }
}

fn reply_due(core: &Core) -> Result<Option<SessionEvent>, NoMemory> {
    let standing = core.standing();
    match outcome_due(standing)? {
        Some(outcome) => Ok(Some(SessionEvent::Replied {
            outcome,
            status: standing.status,
        })),
        None => Ok(None),
    }
}

/// The one event of that kind that may come at the session: of a call of the gate, a post, an
/// answer that is taken, a detachment, a reply or an end. It may be that this one may not either.
pub(crate) fn due_at(
    w: &Replicas,
    s: SessionId,
    kind: Kind,
) -> Result<Option<SessionEvent>, NoMemory> {
    let core = &w.cores[s.number as usize];
    match kind {
        Kind::Gate => Ok(gate_due(&w.gate, core)),
        Kind::Post => post_due(core),
        Kind::Take => take_due(w, s, core),
        Kind::Detach => detach_due(&w.gate, core),
        Kind::Reply => reply_due(core),
        Kind::End => Ok(Some(SessionEvent::Ended)),
        Kind::Order | Kind::Act | Kind::Lost | Kind::Fault => Ok(None),
    }
}
