//! What a Look keeps behind which a run has its result.
ghost use Rattle.std.specs.Prelude.{◌≡◌, false, Some, None};
ghost use Rattle.pool_base.specs.declared.session_id.SessionId.{SessionId};
ghost use Rattle.pool_base.specs.declared.gate_call.GateAnswer.{GateAnswer};
ghost use Rattle.pool_base.specs.declared.gate_call.GateCall.TheVariants.{Look};
ghost use Rattle.backend_trait.specs.Store.{is_refusal};
ghost use Rattle.session_machine.specs.declared.action.SessionEvent.TheVariants.{Called};
ghost use Rattle.session_machine.specs.declared.work.Work.{Work};
ghost use Rattle.session_machine.specs.declared.machine.Heard.{Heard};
ghost use Rattle.session_machine.specs.declared.machine.Stage.TheVariants.{Running};
ghost use Rattle.session_machine.specs.declared.machine.Point.TheVariants.{LookDue};
ghost use Rattle.session_machine.specs.Answers.{next_of, kept, first_other, goes_on};
ghost use Rattle.session_machine.specs.Rules.{kind_of};
ghost use Rattle.one_copy_model.specs.declared.event.Event.TheVariants.{Of};
ghost use Rattle.one_copy_model.specs.World.{MayHappen};
ghost use Rattle.one_copy_model.specs.Tracking.{Tracked, tracked_after};
ghost use Rattle.one_copy_model.specs.Invariant.{Invariant};

/// A Look at the end of the chain of a run that every attached backend has answered with the same
/// result keeps the invariant: the single run may give that result, and stands then as each of them
/// does.
pub fn ran_keeps()
    ensures { (t : Tracked) (s : SessionId) (answer : GateAnswer) (work : Work) (best : Heard)
        → Invariant t
        → (t.world.machine s.number).point ≡ LookDue (Running work)
        → next_of (kind_of (Running work)) t.world.gate.attached.bits
        (t.world.machine s.number).session.heard ≡ None
        → kept t.world.gate.attached.bits (t.world.machine s.number).session.heard ≡ Some best
        → first_other t.world.gate.attached.bits best.answer 0
        (t.world.machine s.number).session.heard ≡ None
        → goes_on t.world.gate.attached.bits (t.world.machine s.number).session.heard best.answer
        ≡ false
        → is_refusal best.answer ≡ false
        → MayHappen t.world (Of s (Called Look answer))
        → Invariant (tracked_after t (Of s (Called Look answer))) }
{}
