//! What a Look keeps at which answers differ.
ghost use Rattle.std.specs.Prelude.{◌≡◌, true, Some, None};
ghost use Rattle.pool_base.specs.declared.session_id.SessionId.{SessionId};
ghost use Rattle.pool_base.specs.declared.backend_id.BackendId.{BackendId};
ghost use Rattle.pool_base.specs.declared.gate_call.GateAnswer.{GateAnswer};
ghost use Rattle.pool_base.specs.declared.gate_call.GateCall.TheVariants.{Look};
ghost use Rattle.session_machine.specs.declared.action.SessionEvent.TheVariants.{Called};
ghost use Rattle.session_machine.specs.declared.machine.Point.TheVariants.{LookDue};
ghost use Rattle.session_machine.specs.declared.machine.Stage.{Stage};
ghost use Rattle.session_machine.specs.declared.machine.Heard.{Heard};
ghost use Rattle.session_machine.specs.Answers.{lowest, next_of, kept, first_other, goes_on};
ghost use Rattle.session_machine.specs.Rules.{kind_of};
ghost use Rattle.one_copy_model.specs.Chains.{goes_up};
ghost use Rattle.one_copy_model.specs.declared.event.Event.TheVariants.{Of};
ghost use Rattle.one_copy_model.specs.World.{MayHappen};
ghost use Rattle.one_copy_model.specs.Tracking.{Tracked, tracked_after};
ghost use Rattle.one_copy_model.specs.Invariant.{Invariant};

/// A Look at which a chain's answers are compared, and one is found that differs from the kept one,
/// keeps the invariant: the detachment that is due has its cause.
pub fn split_keeps()
    ensures { (t : Tracked) (s : SessionId) (answer : GateAnswer) (stage : Stage)
        (best own : Heard) → Invariant t
        → (t.world.machine s.number).point ≡ LookDue stage
        → goes_up stage ≡ true
        → next_of (kind_of stage) t.world.gate.attached.bits
        (t.world.machine s.number).session.heard ≡ None
        → kept t.world.gate.attached.bits (t.world.machine s.number).session.heard ≡ Some best
        → first_other t.world.gate.attached.bits best.answer 0
        (t.world.machine s.number).session.heard ≡ Some own
        → MayHappen t.world (Of s (Called Look answer))
        → Invariant (tracked_after t (Of s (Called Look answer))) }
{}

/// So does one at which nobody's answer is kept, and one at which none differs and the chain asks
/// on: the Look is due again.
pub fn stay_keeps()
    ensures unkept { (t : Tracked) (s : SessionId) (answer : GateAnswer) (stage : Stage)
        (first : BackendId) → Invariant t
        → (t.world.machine s.number).point ≡ LookDue stage
        → goes_up stage ≡ true
        → next_of (kind_of stage) t.world.gate.attached.bits
        (t.world.machine s.number).session.heard ≡ None
        → lowest t.world.gate.attached.bits ≡ Some first
        → kept t.world.gate.attached.bits (t.world.machine s.number).session.heard ≡ None
        → MayHappen t.world (Of s (Called Look answer))
        → Invariant (tracked_after t (Of s (Called Look answer))) }
    ensures onward { (t : Tracked) (s : SessionId) (answer : GateAnswer) (stage : Stage)
        (first : BackendId) (best : Heard) → Invariant t
        → (t.world.machine s.number).point ≡ LookDue stage
        → goes_up stage ≡ true
        → next_of (kind_of stage) t.world.gate.attached.bits
        (t.world.machine s.number).session.heard ≡ None
        → lowest t.world.gate.attached.bits ≡ Some first
        → kept t.world.gate.attached.bits (t.world.machine s.number).session.heard ≡ Some best
        → first_other t.world.gate.attached.bits best.answer 0
        (t.world.machine s.number).session.heard ≡ None
        → goes_on t.world.gate.attached.bits (t.world.machine s.number).session.heard best.answer
        ≡ true
        → MayHappen t.world (Of s (Called Look answer))
        → Invariant (tracked_after t (Of s (Called Look answer))) }
{}
