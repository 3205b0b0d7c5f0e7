//! What deaths keep.
ghost use Rattle.std.specs.Prelude.{◌≡◌, ℕ, ◌+◌, Bool, true, List, Option, Some, None};
ghost use Rattle.pool_base.specs.Sets.{has};
ghost use Rattle.one_copy_model.specs.declared.deed.Entry.{Entry};
ghost use Rattle.one_copy_model.specs.World.{World};
ghost use Rattle.one_copy_model.specs.Deaths.{is_live, fallen};
ghost use Rattle.one_copy_model.specs.SingleRun.{store_after};
ghost use Rattle.one_copy_model.specs.Tracking.{Told, Tracked, tracked_after};
ghost use Rattle.one_copy_model.specs.Invariant.{Invariant};
ghost use Rattle.one_copy_model.specs.Facts.{Facts};
ghost use Rattle.pool_base.specs.declared.session_id.SessionId.{SessionId};
ghost use Rattle.pool_base.specs.declared.backend_id.BackendId.{BackendId};
ghost use Rattle.pool_base.specs.declared.gate_call.GateAnswer.{GateAnswer};
ghost use Rattle.pool_base.specs.declared.gate_call.GateCall.TheVariants.{Detach};
ghost use Rattle.snapshot_gate.specs.Function.{step};
ghost use Rattle.session_machine.specs.declared.action.Cause.{Cause};
ghost use Rattle.session_machine.specs.declared.action.SessionEvent.TheVariants.{Detached};
ghost use Rattle.session_machine.specs.declared.machine.Stage.{Stage};
ghost use Rattle.session_machine.specs.declared.machine.Point.TheVariants.{LostDue, SplitDue};
ghost use Rattle.session_machine.specs.declared.machine.Heard.{Heard};
ghost use Rattle.pool_base.specs.declared.backend_set.BackendSet.{BackendSet};
ghost use Rattle.session_machine.specs.Answers.{lowest, first_other};
ghost use Rattle.one_copy_model.specs.declared.event.Event.TheVariants.{Of};
ghost use Rattle.one_copy_model.specs.World.{MayHappen};

/// From the facts behind what an event has placed to the invariant behind its deaths, where a
/// backend is attached.
pub fn falls_keep()
    ensures { (w : World) (history : List Entry) (orders : ℕ → Option Told)
        (done : ℕ → ℕ → Bool) (first : ℕ)
        → Facts w.tables w.gate w.machine w.store w.mail history orders done
        (λ s. is_live ((store_after w.tables history).transaction s))
        → has w.gate.attached.bits first ≡ true
        → Invariant (record {
          world = w;
          history = fallen w history 65;
          orders = orders;
          done = done;
        }) }
{}

/// The detachment of a backend whose loss was seen keeps it, where another is attached.
pub fn lost_keeps()
    ensures { (t : Tracked) (s : SessionId) (b c first : BackendId) (cause : Cause)
        (answer : GateAnswer) (stage : Stage) (before more : ℕ) → Invariant t
        → (t.world.machine s.number).point ≡ LostDue stage c before more
        → lowest (step t.world.gate (Detach b)).0.attached.bits ≡ Some first
        → MayHappen t.world (Of s (Detached b cause answer))
        → Invariant (tracked_after t (Of s (Detached b cause answer))) }
{}

/// So does the detachment of a backend whose answer differs, behind which another that differs is
/// due.
pub fn split_next_keeps()
    ensures { (t : Tracked) (s : SessionId) (b first : BackendId) (cause : Cause)
        (answer : GateAnswer) (stage : Stage) (best own mine : Heard) (among : BackendSet)
        (more : Bool) → Invariant t
        → (t.world.machine s.number).point ≡ SplitDue stage best own among more
        → first_other among.bits best.answer (own.b.number + 1)
        (t.world.machine s.number).session.heard ≡ Some mine
        → lowest (step t.world.gate (Detach b)).0.attached.bits ≡ Some first
        → MayHappen t.world (Of s (Detached b cause answer))
        → Invariant (tracked_after t (Of s (Detached b cause answer))) }
{}

/// So does the last of those whose answers differ, behind which the chain asks on.
pub fn split_on_keeps()
    ensures { (t : Tracked) (s : SessionId) (b first : BackendId) (cause : Cause)
        (answer : GateAnswer) (stage : Stage) (best own : Heard) (among : BackendSet) → Invariant t
        → (t.world.machine s.number).point ≡ SplitDue stage best own among true
        → first_other among.bits best.answer (own.b.number + 1)
        (t.world.machine s.number).session.heard ≡ None
        → lowest (step t.world.gate (Detach b)).0.attached.bits ≡ Some first
        → MayHappen t.world (Of s (Detached b cause answer))
        → Invariant (tracked_after t (Of s (Detached b cause answer))) }
{}
