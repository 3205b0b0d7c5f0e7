//! What a post keeps, and what the marks of a store keep.
ghost use Rattle.std.specs.Prelude.{ℕ};
ghost use Rattle.pool_base.specs.declared.session_id.SessionId.{SessionId};
ghost use Rattle.pool_base.specs.declared.backend_id.BackendId.{BackendId};
ghost use Rattle.backend_trait.specs.declared.request.Request.{Request};
ghost use Rattle.session_machine.specs.declared.action.SessionEvent.TheVariants.{Posted};
ghost use Rattle.one_copy_model.specs.declared.event.Event.TheVariants.{Of};
ghost use Rattle.one_copy_model.specs.World.{MayHappen};
ghost use Rattle.one_copy_model.specs.Tracking.{Tracked, tracked_after};
ghost use Rattle.one_copy_model.specs.Invariant.{Invariant};
ghost use Rattle.one_copy_laws.specs.Remarked.{remarked};

/// A store that marks what is crossed at it keeps the invariant.
pub fn marks_keep()
    ensures { (t : Tracked) (b : ℕ) → Invariant t → Invariant (remarked t b) }
{}

/// A post keeps it.
pub fn post_keeps()
    ensures { (t : Tracked) (s : SessionId) (b : BackendId) (request : Request)
        → Invariant t
        → MayHappen t.world (Of s (Posted b request))
        → Invariant (tracked_after t (Of s (Posted b request))) }
{}
