//! Whether a core stands as at its start, or outside a block.
ghost use Rattle.std.specs.Prelude.{◌≡◌, ◌↔◌, IsTrue};
ghost use Rattle.session_machine.specs.Rules.{new_machine};
ghost use Rattle.session_engine.specs.declared.due.Due.TheVariants.{Resting};
ghost use Rattle.session_engine.specs.Cores.{machine_in};
ghost use Rattle.session_engine.specs.Meaning.{machine_of};
ghost use Rattle.session_machine.specs.declared.machine.GatePhase.TheVariants.{Out};
ghost use Rattle.session_machine.specs.declared.status.Status.TheVariants.{Idle};
ghost use Rattle.session_seat.specs.Steps.{IsOutside};

use pool_base::{BackendSet, SessionId, View};
use session_engine::{Core, Due, Standing};
use session_machine::{GatePhase, ReadPolicy, Status};

/// The view of a session that has not called the gate.
const NO_VIEW: View = View {
    attached: BackendSet { bits: 0 },
    epoch: 0,
    touched: 0,
    done: 0,
};

/// Whether a session is that one.
#[tactic(auto, using(crate::proofs::StepLemmas::same_session))]
fn is_session(id: SessionId, s: SessionId) -> bool
    ensures { IsTrue result ↔ (id ≡ s) }
{
    id.number == s.number
}

/// Whether a policy is that one.
fn is_policy(policy: &ReadPolicy, wanted: &ReadPolicy) -> bool
    ensures { IsTrue result ↔ (policy.now ≡ wanted.now) }
{
    policy.weights == wanted.weights
        && policy.balance == wanted.balance
        && policy.per_statement == wanted.per_statement
}

fn is_resting(due: &Due) -> bool
    ensures { IsTrue result ↔ (due.now ≡ Resting) }
{
    matches!(due, Due::Resting)
}

fn is_out(gate: GatePhase) -> bool
    ensures { IsTrue result ↔ (gate ≡ Out) }
{
    matches!(gate, GatePhase::Out)
}

fn is_idle(status: Status) -> bool
    ensures { IsTrue result ↔ (status ≡ Idle) }
{
    matches!(status, Status::Idle)
}

/// Whether a session stands as at its start, whichever its number and its policy.
fn is_at_start(standing: &Standing) -> bool
    ensures { IsTrue result
        ↔ (machine_of standing.now ≡ new_machine standing.now.id standing.now.policy) }
{
    is_idle(standing.status)
        && standing.moment == 0
        && is_out(standing.gate)
        && standing.view == NO_VIEW
        && standing.answers.as_slice().is_empty()
        && standing.reads == 0
        && is_resting(&standing.due)
}

/// Whether a core is that of a session of this number and policy at its start.
pub(crate) fn is_new(core: &Core, s: SessionId, policy: &ReadPolicy) -> bool
    ensures { IsTrue result ↔ (machine_in core.now ≡ new_machine s policy.now) }
{
    let standing = core.standing();
    if !is_session(standing.id, s) {
        return false;
    }
    if !is_policy(&standing.policy, policy) {
        return false;
    }
    is_at_start(standing)
}

/// Whether a session is in no block, has no transaction, and nothing is due of it.
fn is_apart(standing: &Standing) -> bool
    ensures { IsTrue result ↔ IsOutside (machine_of standing.now) }
{
    is_resting(&standing.due) && is_idle(standing.status) && is_out(standing.gate)
}

/// Whether a core is in no block, has no transaction, and nothing is due of it.
pub(crate) fn is_outside(core: &Core) -> bool
    ensures { IsTrue result ↔ IsOutside (machine_in core.now) }
{
    is_apart(core.standing())
}
