//! What holds of schedules.
ghost use Rattle.std.specs.Prelude.{◌≡◌, ◌<◌, ℕ, true, List};
ghost use Rattle.pool_base.specs.declared.backend_id.BackendId.{BackendId};
ghost use Rattle.pool_base.specs.declared.backend_set.BackendSet.{BackendSet};
ghost use Rattle.schema.specs.declared.catalogue.TableDef.{TableDef};
ghost use Rattle.backend_trait.specs.declared.request.Request.{Request};
ghost use Rattle.backend_trait.specs.Store.{Store};
ghost use Rattle.backend_trait.specs.Acts.{Crosses};
ghost use Rattle.session_machine.specs.declared.machine.ReadPolicy.{ReadPolicy};
ghost use Rattle.snapshot_gate.specs.Runs.{AreApart};
ghost use Rattle.one_copy_model.specs.declared.event.Event.{Event};
ghost use Rattle.one_copy_model.specs.declared.event.Event.TheVariants.{Lost};
ghost use Rattle.one_copy_model.specs.Marks.{is_crossed, AsksWithin};
ghost use Rattle.one_copy_model.specs.Tracking.{Tracked, first_tracked, tracked_after};
ghost use Rattle.one_copy_model.specs.Replies.{AllAcknowledged};
ghost use Rattle.one_copy_model.specs.Statement.{IsOneCopy, ReplicasAgree};
ghost use Rattle.one_copy_model.specs.Invariant.{AlwaysHolds, AnswersAlike, Invariant};
ghost use Rattle.one_copy_model.specs.World.{World, first_world, after_all, IsSchedule, FailsAt};

/// Snapshots and commits are never under way together, whatever the schedule.
pub fn never_together()
    ensures { (tables : List TableDef) (policy : ReadPolicy) (attached : BackendSet)
        (events : List Event)
        → IsSchedule (first_world tables policy attached) events
        → AreApart (after_all (first_world tables policy attached) events).gate }
{}

/// A list of events that is no schedule has one first event that may not come, and a schedule none.
pub fn one_first_failure()
    ensures none { (w : World) (events : List Event) (n : ℕ)
        → IsSchedule w events → ¬ (FailsAt w events n) }
    ensures one { (w : World) (events : List Event) (n m : ℕ)
        → FailsAt w events n → FailsAt w events m → n ≡ m }
    ensures some { (w : World) (events : List Event) → ¬ (IsSchedule w events)
        → ¬ ((n : ℕ) → ¬ (FailsAt w events n)) }
{}

/// A mark is set only where another session crosses the request, and wherever one does.
pub fn marks_are_crossings()
    ensures only { (st : Store) (s : ℕ) (request : Request)
        → is_crossed st s request ≡ true → Crosses st s request }
    ensures all { (st : Store) (s : ℕ) (request : Request) → AsksWithin st
        → Crosses st s request → is_crossed st s request ≡ true }
{}

/// The invariant holds at the start, whatever the configuration, and what keeps answers alike.
pub fn starts_right()
    ensures holds { (tables : List TableDef) (policy : ReadPolicy) (attached : BackendSet)
        → attached.bits < 256 → Invariant (first_tracked tables policy attached) }
    ensures alike { (tables : List TableDef) (policy : ReadPolicy) (attached : BackendSet)
        → AnswersAlike (first_tracked tables policy attached) }
{}

/// Where the invariant holds, the attached backends agree with the single run.
pub fn agreement_follows()
    ensures { (t : Tracked) → Invariant t → ReplicasAgree t }
{}

/// Where the invariant holds at every moment of a schedule, its single run is a run of one store,
/// and each reply is its order's answer there or the pool's own.
pub fn one_copy_follows()
    ensures { (tables : List TableDef) (policy : ReadPolicy) (attached : BackendSet)
        (events : List Event)
        → IsSchedule (first_world tables policy attached) events
        → AlwaysHolds (first_tracked tables policy attached) events
        → IsOneCopy tables policy attached events }
{}

/// Where it does, each acknowledged commit is done by every attached backend at its reply.
pub fn acknowledged_follow()
    ensures { (tables : List TableDef) (policy : ReadPolicy) (attached : BackendSet)
        (events : List Event)
        → IsSchedule (first_world tables policy attached) events
        → AlwaysHolds (first_tracked tables policy attached) events
        → AllAcknowledged (first_tracked tables policy attached) events }
{}

/// A loss keeps the invariant, and what keeps answers alike.
pub fn loss_keeps()
    ensures holds { (t : Tracked) (b : BackendId) → Invariant t
        → Invariant (tracked_after t (Lost b)) }
    ensures alike { (t : Tracked) (b : BackendId) → Invariant t → AnswersAlike t
        → AnswersAlike (tracked_after t (Lost b)) }
{}
