//! What holds of the posts of a schedule.
ghost use Rattle.std.specs.Prelude.{◌<◌, List};
ghost use Rattle.pool_base.specs.declared.backend_set.BackendSet.{BackendSet};
ghost use Rattle.schema.specs.declared.catalogue.TableDef.{TableDef};
ghost use Rattle.schema.specs.Allowed.{AreAllowed};
ghost use Rattle.session_machine.specs.declared.machine.ReadPolicy.{ReadPolicy};
ghost use Rattle.one_copy_model.specs.declared.event.Event.{Event};
ghost use Rattle.one_copy_model.specs.World.{first_world, after, after_all, IsSchedule, MayHappen};
ghost use Rattle.one_copy_model.specs.Tracking.{Tracked};
ghost use Rattle.one_copy_model.specs.Invariant.{Invariant};
ghost use Rattle.one_copy_laws.specs.Posts.{AreAwaited, PostsMeet};

/// Where the invariant holds and what waits is awaited, a post that is due at an attached backend
/// meets its store's condition, and nothing of the session waits there.
pub fn due_posts_meet()
    ensures { (t : Tracked) → Invariant t → AreAwaited t.world → PostsMeet t.world }
{}

/// Every event that may come keeps that what waits is awaited.
pub fn every_event_awaits()
    ensures { (t : Tracked) (e : Event) → Invariant t → AreAwaited t.world → MayHappen t.world e
        → AreAwaited (after t.world e) }
{}

/// Behind every schedule, over tables that a schema can have, a post that is due at an attached
/// backend meets its store's condition, and nothing of the session waits there.
pub fn posts_meet_their_conditions()
    ensures { (tables : List TableDef) (policy : ReadPolicy) (attached : BackendSet)
        (events : List Event) → AreAllowed tables → attached.bits < 256
        → IsSchedule (first_world tables policy attached) events
        → PostsMeet (after_all (first_world tables policy attached) events) }
{}
