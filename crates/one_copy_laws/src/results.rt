//! What a Look that closes the chain of a statement keeps.
ghost use Rattle.std.specs.Prelude.{◌≡◌, ℕ, true, false, List, ◌∷◌, Some, None};
ghost use Rattle.pool_base.specs.Sets.{has};
ghost use Rattle.pool_base.specs.declared.code.Code.{Code};
ghost use Rattle.pool_base.specs.declared.session_id.SessionId.{SessionId};
ghost use Rattle.pool_base.specs.declared.gate_call.GateAnswer.{GateAnswer};
ghost use Rattle.pool_base.specs.declared.gate_call.GateCall.TheVariants.{Look};
ghost use Rattle.backend_trait.specs.declared.answer.Answer.TheVariants.{Refused};
ghost use Rattle.backend_trait.specs.Store.{is_refusal};
ghost use Rattle.session_machine.specs.declared.action.SessionEvent.TheVariants.{Called};
ghost use Rattle.session_machine.specs.declared.work.Work.{Work};
ghost use Rattle.session_machine.specs.declared.machine.Heard.{Heard};
ghost use Rattle.session_machine.specs.declared.machine.Stage.{Stage};
ghost use Rattle.session_machine.specs.declared.machine.Stage.TheVariants.{Reading};
ghost use Rattle.session_machine.specs.declared.machine.Point.TheVariants.{LookDue};
ghost use Rattle.session_machine.specs.Answers.{next_of, kept, first_other, counts};
ghost use Rattle.session_machine.specs.Rules.{kind_of};
ghost use Rattle.one_copy_model.specs.declared.event.Event.TheVariants.{Of};
ghost use Rattle.one_copy_model.specs.World.{MayHappen};
ghost use Rattle.one_copy_model.specs.Deaths.{heard_from};
ghost use Rattle.one_copy_model.specs.Tracking.{Tracked, tracked_after};
ghost use Rattle.one_copy_model.specs.Invariant.{Invariant, stops};

/// A Look at the end of the chain of a run, or of the lock of a serial insert, at which it is
/// refused and no answers differ, keeps the invariant: the transaction dies by the code, or has
/// died of it.
pub fn refused_keeps()
    ensures { (t : Tracked) (s : SessionId) (answer : GateAnswer) (stage : Stage) (best : Heard)
        (code : Code) → Invariant t
        → (t.world.machine s.number).point ≡ LookDue stage
        → stops stage ≡ true
        → next_of (kind_of stage) t.world.gate.attached.bits
        (t.world.machine s.number).session.heard ≡ None
        → kept t.world.gate.attached.bits (t.world.machine s.number).session.heard ≡ Some best
        → first_other t.world.gate.attached.bits best.answer 0
        (t.world.machine s.number).session.heard ≡ None
        → best.answer ≡ Refused code
        → MayHappen t.world (Of s (Called Look answer))
        → Invariant (tracked_after t (Of s (Called Look answer))) }
{}

/// So does a Look at which the attached backend that reads has refused.
pub fn refused_read_keeps()
    ensures { (t : Tracked) (s : SessionId) (answer : GateAnswer) (work : Work) (ticket : ℕ)
        (one : Heard) (more : List Heard) (code : Code) → Invariant t
        → (t.world.machine s.number).point ≡ LookDue (Reading work ticket)
        → (t.world.machine s.number).session.heard ≡ one ∷ more
        → counts t.world.gate.attached.bits one ≡ true
        → one.answer ≡ Refused code
        → MayHappen t.world (Of s (Called Look answer))
        → Invariant (tracked_after t (Of s (Called Look answer))) }
{}

/// So does a Look at which the attached backend that reads has given its rows: the single run gives
/// the same rows.
pub fn read_keeps()
    ensures { (t : Tracked) (s : SessionId) (answer : GateAnswer) (work : Work) (ticket : ℕ)
        (one : Heard) (more : List Heard) → Invariant t
        → (t.world.machine s.number).point ≡ LookDue (Reading work ticket)
        → (t.world.machine s.number).session.heard ≡ one ∷ more
        → counts t.world.gate.attached.bits one ≡ true
        → is_refusal one.answer ≡ false
        → MayHappen t.world (Of s (Called Look answer))
        → Invariant (tracked_after t (Of s (Called Look answer))) }
{}

/// A Look at which no attached backend has answered a read keeps it: the read goes to the backend
/// whose turn it is.
pub fn reread_keeps()
    ensures { (t : Tracked) (s : SessionId) (answer : GateAnswer) (work : Work) (ticket : ℕ)
        → Invariant t
        → (t.world.machine s.number).point ≡ LookDue (Reading work ticket)
        → ((b : ℕ) → has t.world.gate.attached.bits b ≡ true
        → heard_from (t.world.machine s.number).session.heard b ≡ None)
        → MayHappen t.world (Of s (Called Look answer))
        → Invariant (tracked_after t (Of s (Called Look answer))) }
{}
