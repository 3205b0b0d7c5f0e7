//! What a call of the gate keeps.
ghost use Rattle.pool_base.specs.declared.session_id.SessionId.{SessionId};
ghost use Rattle.pool_base.specs.declared.gate_call.GateAnswer.{GateAnswer};
ghost use Rattle.pool_base.specs.declared.gate_call.GateCall.TheVariants.{EnterSnapshot, LeaveSnapshot, LeaveCommit, Finish};
ghost use Rattle.session_machine.specs.declared.action.SessionEvent.TheVariants.{Called};
ghost use Rattle.one_copy_model.specs.declared.event.Event.TheVariants.{Of};
ghost use Rattle.one_copy_model.specs.World.{MayHappen};
ghost use Rattle.one_copy_model.specs.Tracking.{Tracked, tracked_after};
ghost use Rattle.one_copy_model.specs.Invariant.{Invariant};

/// The end of a transaction at the gate keeps the invariant.
pub fn finish_keeps()
    ensures { (t : Tracked) (s : SessionId) (answer : GateAnswer) → Invariant t
        → MayHappen t.world (Of s (Called Finish answer))
        → Invariant (tracked_after t (Of s (Called Finish answer))) }
{}

/// The leaving of a commit keeps it.
pub fn leave_commit_keeps()
    ensures { (t : Tracked) (s : SessionId) (answer : GateAnswer) → Invariant t
        → MayHappen t.world (Of s (Called LeaveCommit answer))
        → Invariant (tracked_after t (Of s (Called LeaveCommit answer))) }
{}

/// The entering of a snapshot keeps it.
pub fn enter_snapshot_keeps()
    ensures { (t : Tracked) (s : SessionId) (answer : GateAnswer) → Invariant t
        → MayHappen t.world (Of s (Called EnterSnapshot answer))
        → Invariant (tracked_after t (Of s (Called EnterSnapshot answer))) }
{}

/// The leaving of a snapshot keeps it.
pub fn leave_snapshot_keeps()
    ensures { (t : Tracked) (s : SessionId) (answer : GateAnswer) → Invariant t
        → MayHappen t.world (Of s (Called LeaveSnapshot answer))
        → Invariant (tracked_after t (Of s (Called LeaveSnapshot answer))) }
{}
