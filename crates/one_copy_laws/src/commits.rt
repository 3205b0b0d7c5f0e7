//! What the entering of a commit keeps.
ghost use Rattle.std.specs.Prelude.{ℕ};
ghost use Rattle.pool_base.specs.declared.session_id.SessionId.{SessionId};
ghost use Rattle.pool_base.specs.declared.gate_call.GateAnswer.{GateAnswer};
ghost use Rattle.pool_base.specs.declared.gate_call.GateCall.TheVariants.{EnterCommit};
ghost use Rattle.session_machine.specs.declared.action.SessionEvent.TheVariants.{Called};
ghost use Rattle.one_copy_model.specs.declared.event.Event.TheVariants.{Of};
ghost use Rattle.one_copy_model.specs.World.{MayHappen};
ghost use Rattle.one_copy_model.specs.Tracking.{Tracked, tracked_after};
ghost use Rattle.one_copy_model.specs.Invariant.{Invariant};

/// The entry of a commit keeps the invariant: its COMMIT stands in the single run, and no backend
/// has done it yet.
pub fn enter_commit_keeps()
    ensures { (t : Tracked) (s : SessionId) (written : ℕ) (answer : GateAnswer) → Invariant t
        → MayHappen t.world (Of s (Called (EnterCommit written) answer))
        → Invariant (tracked_after t (Of s (Called (EnterCommit written) answer))) }
{}
