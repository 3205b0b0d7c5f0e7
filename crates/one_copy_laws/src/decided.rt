//! What the detachment keeps behind which a kept answer decides.
ghost use Rattle.std.specs.Prelude.{◌≡◌, ℕ, ◌+◌, Bool, true, false, Some, None};
ghost use Rattle.pool_base.specs.declared.session_id.SessionId.{SessionId};
ghost use Rattle.pool_base.specs.declared.backend_id.BackendId.{BackendId};
ghost use Rattle.pool_base.specs.declared.backend_set.BackendSet.{BackendSet};
ghost use Rattle.pool_base.specs.declared.gate_call.GateAnswer.{GateAnswer};
ghost use Rattle.pool_base.specs.declared.gate_call.GateCall.TheVariants.{Detach};
ghost use Rattle.backend_trait.specs.Store.{is_refusal};
ghost use Rattle.snapshot_gate.specs.Function.{step};
ghost use Rattle.session_machine.specs.declared.action.Cause.{Cause};
ghost use Rattle.session_machine.specs.declared.action.SessionEvent.TheVariants.{Detached};
ghost use Rattle.session_machine.specs.declared.machine.Point.TheVariants.{LostDue, SplitDue};
ghost use Rattle.session_machine.specs.declared.machine.Stage.{Stage};
ghost use Rattle.session_machine.specs.declared.machine.Stage.TheVariants.{Opening, Locking};
ghost use Rattle.session_machine.specs.declared.machine.Heard.{Heard};
ghost use Rattle.session_machine.specs.declared.work.Work.{Work};
ghost use Rattle.session_machine.specs.Answers.{lowest, first_other};
ghost use Rattle.one_copy_model.specs.declared.event.Event.TheVariants.{Of};
ghost use Rattle.one_copy_model.specs.World.{MayHappen};
ghost use Rattle.one_copy_model.specs.Tracking.{Tracked, tracked_after};
ghost use Rattle.one_copy_model.specs.Invariant.{Invariant};
ghost use Rattle.one_copy_laws.specs.Ends.{is_ending};

/// The last backend whose answer to an opening differs is detached, and another is attached behind
/// it: the opening is granted, or refused, and the invariant holds on.
pub fn opens_decided_keeps()
    ensures { (t : Tracked) (s : SessionId) (b first : BackendId) (cause : Cause)
        (answer : GateAnswer) (work : Work) (best own : Heard) (among : BackendSet) → Invariant t
        → (t.world.machine s.number).point ≡ SplitDue (Opening work) best own among false
        → first_other among.bits best.answer (own.b.number + 1)
        (t.world.machine s.number).session.heard ≡ None
        → lowest (step t.world.gate (Detach b)).0.attached.bits ≡ Some first
        → MayHappen t.world (Of s (Detached b cause answer))
        → Invariant (tracked_after t (Of s (Detached b cause answer))) }
{}

/// So does that of the last whose answer to a serial insert's lock differs, where the kept answer
/// is no refusal: the run is asked for.
pub fn locks_decided_keeps()
    ensures { (t : Tracked) (s : SessionId) (b first : BackendId) (cause : Cause)
        (answer : GateAnswer) (work : Work) (table : ℕ) (best own : Heard) (among : BackendSet)
        → Invariant t
        → (t.world.machine s.number).point ≡ SplitDue (Locking work table) best own among false
        → is_refusal best.answer ≡ false
        → first_other among.bits best.answer (own.b.number + 1)
        (t.world.machine s.number).session.heard ≡ None
        → lowest (step t.world.gate (Detach b)).0.attached.bits ≡ Some first
        → MayHappen t.world (Of s (Detached b cause answer))
        → Invariant (tracked_after t (Of s (Detached b cause answer))) }
{}

/// So does that of the last whose answer to a commit or a rollback differs: the chain is at its
/// end.
pub fn ends_decided_keeps()
    ensures { (t : Tracked) (s : SessionId) (b first : BackendId) (cause : Cause)
        (answer : GateAnswer) (stage : Stage) (best own : Heard) (among : BackendSet)
        → Invariant t
        → (t.world.machine s.number).point ≡ SplitDue stage best own among false
        → is_ending stage ≡ true
        → first_other among.bits best.answer (own.b.number + 1)
        (t.world.machine s.number).session.heard ≡ None
        → lowest (step t.world.gate (Detach b)).0.attached.bits ≡ Some first
        → MayHappen t.world (Of s (Detached b cause answer))
        → Invariant (tracked_after t (Of s (Detached b cause answer))) }
{}

/// The detachment of the last attached backend keeps it, where its loss was seen, and where its
/// answer differs: whoever is live in the single run dies there.
pub fn last_keeps()
    ensures lost { (t : Tracked) (s : SessionId) (b c : BackendId) (cause : Cause)
        (answer : GateAnswer) (stage : Stage) (before more : ℕ) → Invariant t
        → (t.world.machine s.number).point ≡ LostDue stage c before more
        → lowest (step t.world.gate (Detach b)).0.attached.bits ≡ None
        → MayHappen t.world (Of s (Detached b cause answer))
        → Invariant (tracked_after t (Of s (Detached b cause answer))) }
    ensures differs { (t : Tracked) (s : SessionId) (b : BackendId) (cause : Cause)
        (answer : GateAnswer) (stage : Stage) (best own : Heard) (among : BackendSet)
        (more : Bool) → Invariant t
        → (t.world.machine s.number).point ≡ SplitDue stage best own among more
        → lowest (step t.world.gate (Detach b)).0.attached.bits ≡ None
        → MayHappen t.world (Of s (Detached b cause answer))
        → Invariant (tracked_after t (Of s (Detached b cause answer))) }
{}
