//! The way out of the gate.
ghost use Rattle.std.specs.Prelude.{◌≡◌, true};
ghost use Rattle.shared_gate.specs.History.{Out};
ghost use Rattle.pool_server.specs.Passes.{is_leave, left_by};
ghost use Rattle.pool_server.specs.Servings.{ComesOut};

use crate::outside::GatePass;
use pool_base::GateCall;

/// Makes a call by which a pass goes out, where it may be made.
fn leave_by<G: GatePass>(gate: &mut G, call: GateCall)
    requires { is_leave call ≡ true }
    ensures stand { G.stand gate.new ≡ left_by (G.stand gate.old) call }
    ensures cut { G.cut gate.old ≡ true → G.cut gate.new ≡ true }
    ensures calls { ComesOut (G.calls gate.old) (G.calls gate.new) }
{
    if gate.may_step(call) {
        gate.step(call);
    }
}

/// Brings a pass out, by the calls that are due where it stands. One that is out makes none.
#[tactic(auto, using(crate::proofs::WaysOut::all_out))]
pub(crate) fn come_out<G: GatePass>(gate: &mut G)
    ensures out { G.stand gate.new ≡ Out }
    ensures cut { G.cut gate.old ≡ true → G.cut gate.new ≡ true }
    ensures calls { ComesOut (G.calls gate.old) (G.calls gate.new) }
{
    leave_by(gate, GateCall::LeaveSnapshot);
    leave_by(gate, GateCall::LeaveCommit);
    leave_by(gate, GateCall::Finish);
}
