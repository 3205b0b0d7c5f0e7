//! What a reply and an end keep.
ghost use Rattle.pool_base.specs.declared.session_id.SessionId.{SessionId};
ghost use Rattle.session_machine.specs.declared.action.SessionEvent.TheVariants.{Replied, Ended};
ghost use Rattle.session_orders.specs.declared.outcome.Outcome.{Outcome};
ghost use Rattle.session_machine.specs.declared.status.Status.{Status};
ghost use Rattle.one_copy_model.specs.declared.event.Event.TheVariants.{Of};
ghost use Rattle.one_copy_model.specs.World.{MayHappen};
ghost use Rattle.one_copy_model.specs.Tracking.{Tracked, tracked_after};
ghost use Rattle.one_copy_model.specs.Invariant.{Invariant};

/// A reply keeps the invariant.
pub fn reply_keeps()
    ensures { (t : Tracked) (s : SessionId) (outcome : Outcome) (status : Status) → Invariant t
        → MayHappen t.world (Of s (Replied outcome status))
        → Invariant (tracked_after t (Of s (Replied outcome status))) }
{}

/// The end of a session keeps it.
pub fn end_keeps()
    ensures { (t : Tracked) (s : SessionId) → Invariant t → MayHappen t.world (Of s Ended)
        → Invariant (tracked_after t (Of s Ended)) }
{}
