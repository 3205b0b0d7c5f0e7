//! What the detachment keeps behind which a statement is decided.
ghost use Rattle.std.specs.Prelude.{◌≡◌, ℕ, ◌+◌, Bool, true, false, Some, None};
ghost use Rattle.pool_base.specs.declared.code.Code.{Code};
ghost use Rattle.pool_base.specs.declared.session_id.SessionId.{SessionId};
ghost use Rattle.pool_base.specs.declared.backend_id.BackendId.{BackendId};
ghost use Rattle.pool_base.specs.declared.backend_set.BackendSet.{BackendSet};
ghost use Rattle.pool_base.specs.declared.gate_call.GateAnswer.{GateAnswer};
ghost use Rattle.pool_base.specs.declared.gate_call.GateCall.TheVariants.{Detach};
ghost use Rattle.backend_trait.specs.declared.answer.Answer.TheVariants.{Refused};
ghost use Rattle.backend_trait.specs.Store.{is_refusal};
ghost use Rattle.snapshot_gate.specs.Function.{step};
ghost use Rattle.session_machine.specs.declared.action.Cause.{Cause};
ghost use Rattle.session_machine.specs.declared.action.SessionEvent.TheVariants.{Detached};
ghost use Rattle.session_machine.specs.declared.machine.Point.TheVariants.{SplitDue};
ghost use Rattle.session_machine.specs.declared.machine.Stage.{Stage};
ghost use Rattle.session_machine.specs.declared.machine.Stage.TheVariants.{Reading, Running};
ghost use Rattle.session_machine.specs.declared.machine.Heard.{Heard};
ghost use Rattle.session_machine.specs.declared.work.Work.{Work};
ghost use Rattle.session_machine.specs.Answers.{lowest, first_other};
ghost use Rattle.one_copy_model.specs.declared.event.Event.TheVariants.{Of};
ghost use Rattle.one_copy_model.specs.World.{MayHappen};
ghost use Rattle.one_copy_model.specs.Tracking.{Tracked, tracked_after};
ghost use Rattle.one_copy_model.specs.Invariant.{Invariant, stops};
ghost use Rattle.one_copy_laws.specs.Covered.{is_covered};

/// The last backend whose answer to a run or to a serial insert's lock differs is detached, the
/// kept answer is a refusal, and another backend is attached behind it: the statement is refused,
/// and the invariant holds on, whether the transaction is live in the single run or has died there
/// before.
pub fn refuses_decided_keeps()
    ensures { (t : Tracked) (s : SessionId) (b first : BackendId) (cause : Cause)
        (answer : GateAnswer) (stage : Stage) (best own : Heard) (among : BackendSet) (code : Code)
        → Invariant t
        → (t.world.machine s.number).point ≡ SplitDue stage best own among false
        → stops stage ≡ true
        → best.answer ≡ Refused code
        → first_other among.bits best.answer (own.b.number + 1)
        (t.world.machine s.number).session.heard ≡ None
        → lowest (step t.world.gate (Detach b)).0.attached.bits ≡ Some first
        → MayHappen t.world (Of s (Detached b cause answer))
        → Invariant (tracked_after t (Of s (Detached b cause answer))) }
{}

/// So does that behind which a run has its result: those that are alive nowhere any more die first,
/// and then the result has its place in the single run.
pub fn result_decided_keeps()
    ensures { (t : Tracked) (s : SessionId) (b first : BackendId) (cause : Cause)
        (answer : GateAnswer) (work : Work) (best own : Heard) (among : BackendSet) → Invariant t
        → (t.world.machine s.number).point ≡ SplitDue (Running work) best own among false
        → is_refusal best.answer ≡ false
        → first_other among.bits best.answer (own.b.number + 1)
        (t.world.machine s.number).session.heard ≡ None
        → lowest (step t.world.gate (Detach b)).0.attached.bits ≡ Some first
        → MayHappen t.world (Of s (Detached b cause answer))
        → Invariant (tracked_after t (Of s (Detached b cause answer))) }
{}

/// Of a read no answers differ, so it detaches nobody for them.
pub fn reads_agree()
    ensures { (t : Tracked) (s : ℕ) (work : Work) (ticket : ℕ) (best own : Heard)
        (among : BackendSet) (more : Bool) → Invariant t
        → (t.world.machine s).point ≡ SplitDue (Reading work ticket) best own among more → ⊥ }
{}

/// Every detachment keeps it, but one behind which the run of a serial insert is decided.
pub fn detached_keeps()
    ensures { (t : Tracked) (s : SessionId) (b : BackendId) (cause : Cause) (answer : GateAnswer)
        → Invariant t
        → ((first : BackendId) (stage : Stage) (best own : Heard) (among : BackendSet)
        → lowest (step t.world.gate (Detach b)).0.attached.bits ≡ Some first
        → (t.world.machine s.number).point ≡ SplitDue stage best own among false
        → first_other among.bits best.answer (own.b.number + 1)
        (t.world.machine s.number).session.heard ≡ None
        → is_covered stage ≡ true)
        → MayHappen t.world (Of s (Detached b cause answer))
        → Invariant (tracked_after t (Of s (Detached b cause answer))) }
{}
