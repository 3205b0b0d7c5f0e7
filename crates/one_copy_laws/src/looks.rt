//! What a Look keeps.
ghost use Rattle.std.specs.Prelude.{◌≡◌, ℕ, true, Some, None};
ghost use Rattle.pool_base.specs.Sets.{has};
ghost use Rattle.pool_base.specs.declared.backend_id.BackendId.{BackendId};
ghost use Rattle.pool_base.specs.declared.session_id.SessionId.{SessionId};
ghost use Rattle.pool_base.specs.declared.gate_call.GateAnswer.{GateAnswer};
ghost use Rattle.pool_base.specs.declared.gate_call.GateCall.TheVariants.{Look};
ghost use Rattle.session_machine.specs.declared.action.SessionEvent.TheVariants.{Called};
ghost use Rattle.session_machine.specs.declared.machine.Point.TheVariants.{ChooseDue, LookDue, ShowDue};
ghost use Rattle.session_machine.specs.declared.work.Work.{Work};
ghost use Rattle.session_machine.specs.declared.machine.Stage.{Stage};
ghost use Rattle.session_machine.specs.declared.machine.Stage.TheVariants.{Opening, Locking};
ghost use Rattle.backend_trait.specs.declared.answer.Answer.TheVariants.{Locked};
ghost use Rattle.session_machine.specs.declared.machine.Heard.{Heard};
ghost use Rattle.session_machine.specs.Answers.{next_of, first_open, kept, first_other};
ghost use Rattle.session_machine.specs.Rules.{kind_of};
ghost use Rattle.one_copy_model.specs.Chains.{goes_up};
ghost use Rattle.one_copy_laws.specs.Ends.{is_ending};
ghost use Rattle.one_copy_model.specs.declared.event.Event.TheVariants.{Of};
ghost use Rattle.one_copy_model.specs.World.{MayHappen};
ghost use Rattle.one_copy_model.specs.Tracking.{Tracked, tracked_after};
ghost use Rattle.one_copy_model.specs.Invariant.{Invariant};

/// A Look that shows the backends to a client keeps the invariant.
pub fn shown_keeps()
    ensures { (t : Tracked) (s : SessionId) (answer : GateAnswer) → Invariant t
        → (t.world.machine s.number).point ≡ ShowDue
        → MayHappen t.world (Of s (Called Look answer))
        → Invariant (tracked_after t (Of s (Called Look answer))) }
{}

/// A Look behind which a chain asks the next backend keeps it.
pub fn next_keeps()
    ensures { (t : Tracked) (s : SessionId) (answer : GateAnswer) (stage : Stage) (b : BackendId)
        → Invariant t
        → (t.world.machine s.number).point ≡ LookDue stage → goes_up stage ≡ true
        → next_of (kind_of stage) t.world.gate.attached.bits
        (t.world.machine s.number).session.heard ≡ Some b
        → MayHappen t.world (Of s (Called Look answer))
        → Invariant (tracked_after t (Of s (Called Look answer))) }
{}

/// A Look of a chain that shows no backend keeps it.
pub fn stranded_keeps()
    ensures { (t : Tracked) (s : SessionId) (answer : GateAnswer) (stage : Stage) → Invariant t
        → (t.world.machine s.number).point ≡ LookDue stage
        → ((b : ℕ) → has t.world.gate.attached.bits b ≡ true → ⊥)
        → MayHappen t.world (Of s (Called Look answer))
        → Invariant (tracked_after t (Of s (Called Look answer))) }
{}

/// A Look of the chain of an ending keeps it, of a commit, with changes or without, and of a
/// rollback: it shows no backend, the chain goes on, or it closes.
pub fn ending_keeps()
    ensures { (t : Tracked) (s : SessionId) (answer : GateAnswer) (stage : Stage) → Invariant t
        → (t.world.machine s.number).point ≡ LookDue stage → is_ending stage ≡ true
        → MayHappen t.world (Of s (Called Look answer))
        → Invariant (tracked_after t (Of s (Called Look answer))) }
{}

/// A Look at which each attached backend has answered an opening, and no answers differ, keeps it:
/// the opening is granted, or it is refused.
pub fn opening_keeps()
    ensures { (t : Tracked) (s : SessionId) (answer : GateAnswer) (work : Work) (best : Heard)
        → Invariant t
        → (t.world.machine s.number).point ≡ LookDue (Opening work)
        → first_open t.world.gate.attached.bits (t.world.machine s.number).session.heard ≡ None
        → kept t.world.gate.attached.bits (t.world.machine s.number).session.heard ≡ Some best
        → first_other t.world.gate.attached.bits best.answer 0
        (t.world.machine s.number).session.heard ≡ None
        → MayHappen t.world (Of s (Called Look answer))
        → Invariant (tracked_after t (Of s (Called Look answer))) }
{}

/// A Look at which each attached backend has locked the table of a serial insert keeps it.
pub fn locked_keeps()
    ensures { (t : Tracked) (s : SessionId) (answer : GateAnswer) (work : Work) (table : ℕ)
        (best : Heard) → Invariant t
        → (t.world.machine s.number).point ≡ LookDue (Locking work table)
        → first_open t.world.gate.attached.bits (t.world.machine s.number).session.heard ≡ None
        → kept t.world.gate.attached.bits (t.world.machine s.number).session.heard ≡ Some best
        → first_other t.world.gate.attached.bits best.answer 0
        (t.world.machine s.number).session.heard ≡ None
        → best.answer ≡ Locked
        → MayHappen t.world (Of s (Called Look answer))
        → Invariant (tracked_after t (Of s (Called Look answer))) }
{}

/// A Look of a read that chooses its backend keeps it.
pub fn chosen_keeps()
    ensures { (t : Tracked) (s : SessionId) (answer : GateAnswer) (work : Work) → Invariant t
        → (t.world.machine s.number).point ≡ ChooseDue work
        → MayHappen t.world (Of s (Called Look answer))
        → Invariant (tracked_after t (Of s (Called Look answer))) }
{}
