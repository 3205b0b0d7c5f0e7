//! What a step of a chain keeps.
ghost use Rattle.std.specs.Prelude.{ℕ};
ghost use Rattle.pool_base.specs.declared.session_id.SessionId.{SessionId};
ghost use Rattle.pool_base.specs.declared.backend_id.BackendId.{BackendId};
ghost use Rattle.backend_trait.specs.declared.answer.Answer.{Answer};
ghost use Rattle.session_machine.specs.declared.action.SessionEvent.TheVariants.{Faulted, Taken};
ghost use Rattle.one_copy_model.specs.declared.event.Event.TheVariants.{Of};
ghost use Rattle.one_copy_model.specs.World.{MayHappen};
ghost use Rattle.one_copy_model.specs.Tracking.{Tracked, tracked_after};
ghost use Rattle.one_copy_model.specs.Invariant.{Invariant};

/// A loss that a session sees keeps the invariant.
pub fn fault_keeps()
    ensures { (t : Tracked) (s : SessionId) (b : BackendId) (before more : ℕ) → Invariant t
        → MayHappen t.world (Of s (Faulted b before more))
        → Invariant (tracked_after t (Of s (Faulted b before more))) }
{}

/// An answer that a session takes keeps it.
pub fn take_keeps()
    ensures { (t : Tracked) (s : SessionId) (b : BackendId) (answer : Answer) → Invariant t
        → MayHappen t.world (Of s (Taken b answer))
        → Invariant (tracked_after t (Of s (Taken b answer))) }
{}
