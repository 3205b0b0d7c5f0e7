//! What holds of the gate after every run of calls.
ghost use Rattle.std.specs.Prelude.{List};
ghost use Rattle.pool_base.specs.declared.backend_set.BackendSet.{BackendSet};
ghost use Rattle.pool_base.specs.declared.gate_call.GateCall.{GateCall};
ghost use Rattle.snapshot_gate.specs.Function.{first};
ghost use Rattle.snapshot_gate.specs.Runs.{AreApart, IsRun, state_after};

/// Snapshots and commits are never under way together, whatever calls were made.
pub fn never_together()
    ensures apart { (attached : BackendSet) (calls : List GateCall) → IsRun (first attached) calls
        → AreApart (state_after (first attached) calls) }
{}
