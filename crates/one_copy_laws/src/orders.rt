//! What an order keeps.
ghost use Rattle.pool_base.specs.declared.session_id.SessionId.{SessionId};
ghost use Rattle.session_machine.specs.declared.action.SessionEvent.TheVariants.{Ordered};
ghost use Rattle.session_orders.specs.declared.order.Order.{Order};
ghost use Rattle.one_copy_model.specs.declared.event.Event.TheVariants.{Of};
ghost use Rattle.one_copy_model.specs.World.{MayHappen};
ghost use Rattle.one_copy_model.specs.Tracking.{Tracked, tracked_after};
ghost use Rattle.one_copy_model.specs.Invariant.{Invariant};

/// An order keeps the invariant.
pub fn order_keeps()
    ensures { (t : Tracked) (s : SessionId) (order : Order) → Invariant t
        → MayHappen t.world (Of s (Ordered order))
        → Invariant (tracked_after t (Of s (Ordered order))) }
{}
