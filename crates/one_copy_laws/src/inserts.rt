//! What a Look and a detachment keep behind which the run of a serial insert is decided.
ghost use Rattle.std.specs.Prelude.{◌≡◌, ◌+◌, Bool, false, Some, None};
ghost use Rattle.pool_base.specs.declared.session_id.SessionId.{SessionId};
ghost use Rattle.pool_base.specs.declared.backend_id.BackendId.{BackendId};
ghost use Rattle.pool_base.specs.declared.backend_set.BackendSet.{BackendSet};
ghost use Rattle.pool_base.specs.declared.gate_call.GateAnswer.{GateAnswer};
ghost use Rattle.pool_base.specs.declared.gate_call.GateCall.TheVariants.{Detach, Look};
ghost use Rattle.snapshot_gate.specs.Function.{step};
ghost use Rattle.session_machine.specs.declared.action.Cause.{Cause};
ghost use Rattle.session_machine.specs.declared.action.SessionEvent.TheVariants.{Called, Detached};
ghost use Rattle.session_machine.specs.declared.work.Work.{Work};
ghost use Rattle.session_machine.specs.declared.machine.Heard.{Heard};
ghost use Rattle.session_machine.specs.declared.machine.Stage.TheVariants.{Inserting};
ghost use Rattle.session_machine.specs.declared.machine.Point.TheVariants.{LookDue, SplitDue};
ghost use Rattle.session_machine.specs.Answers.{lowest, next_of, kept, first_other};
ghost use Rattle.session_machine.specs.Rules.{kind_of};
ghost use Rattle.one_copy_model.specs.declared.event.Event.TheVariants.{Of};
ghost use Rattle.one_copy_model.specs.World.{MayHappen};
ghost use Rattle.one_copy_model.specs.Tracking.{Tracked, tracked_after};
ghost use Rattle.one_copy_model.specs.Invariant.{Invariant};

/// A Look at the end of the chain of a serial insert's run, where no answers differ, keeps the
/// invariant: with its result it has its place in the single run, with its lock; a refusal amends
/// the death that came before.
pub fn inserted_keeps()
    ensures { (t : Tracked) (s : SessionId) (answer : GateAnswer) (work : Work) (posted : Bool)
        (best : Heard) → Invariant t
        → (t.world.machine s.number).point ≡ LookDue (Inserting work posted)
        → next_of (kind_of (Inserting work posted)) t.world.gate.attached.bits
        (t.world.machine s.number).session.heard ≡ None
        → kept t.world.gate.attached.bits (t.world.machine s.number).session.heard ≡ Some best
        → first_other t.world.gate.attached.bits best.answer 0
        (t.world.machine s.number).session.heard ≡ None
        → MayHappen t.world (Of s (Called Look answer))
        → Invariant (tracked_after t (Of s (Called Look answer))) }
{}

/// So does the detachment of the last backend whose answer to it differs, where another is attached
/// behind it: it has its result, or it is refused, live or dead before.
pub fn inserted_decided_keeps()
    ensures { (t : Tracked) (s : SessionId) (b first : BackendId) (cause : Cause)
        (answer : GateAnswer) (work : Work) (posted : Bool) (best own : Heard)
        (among : BackendSet) → Invariant t
        → (t.world.machine s.number).point ≡ SplitDue (Inserting work posted) best own among false
        → first_other among.bits best.answer (own.b.number + 1)
        (t.world.machine s.number).session.heard ≡ None
        → lowest (step t.world.gate (Detach b)).0.attached.bits ≡ Some first
        → MayHappen t.world (Of s (Detached b cause answer))
        → Invariant (tracked_after t (Of s (Detached b cause answer))) }
{}
