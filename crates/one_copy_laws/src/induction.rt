//! What holds of every schedule.
ghost use Rattle.std.specs.Prelude.{◌≡◌, ◌<◌, List};
ghost use Rattle.pool_base.specs.declared.backend_set.BackendSet.{BackendSet};
ghost use Rattle.pool_base.specs.declared.gate_call.GateCall.{GateCall};
ghost use Rattle.pool_base.specs.declared.session_id.SessionId.{SessionId};
ghost use Rattle.schema.specs.declared.catalogue.TableDef.{TableDef};
ghost use Rattle.schema.specs.Allowed.{AreAllowed};
ghost use Rattle.session_machine.specs.declared.action.Action.TheVariants.{Gate};
ghost use Rattle.session_machine.specs.declared.machine.ReadPolicy.{ReadPolicy};
ghost use Rattle.session_machine.specs.Rules.{next_action};
ghost use Rattle.snapshot_gate.specs.Function.{MayCall};
ghost use Rattle.one_copy_model.specs.declared.event.Event.{Event};
ghost use Rattle.one_copy_model.specs.World.{first_world, IsSchedule, MayHappen};
ghost use Rattle.one_copy_model.specs.Tracking.{Tracked, first_tracked, tracked_after};
ghost use Rattle.one_copy_model.specs.Statement.{AlwaysAgree, CommitsAreDone, OneCopy};
ghost use Rattle.one_copy_model.specs.Invariant.{AlwaysHolds, Invariant};
ghost use Rattle.one_copy_laws.specs.Caused.{AreCaused};

/// Every event that may come keeps the invariant, over tables that a schema can have.
pub fn every_event_keeps()
    ensures { (t : Tracked) (e : Event) → Invariant t → AreAllowed t.world.tables
        → MayHappen t.world e → Invariant (tracked_after t e) }
{}

/// The invariant holds at every moment of every schedule over such tables.
pub fn always_holds()
    ensures { (tables : List TableDef) (policy : ReadPolicy) (attached : BackendSet)
        (events : List Event) → AreAllowed tables → attached.bits < 256
        → IsSchedule (first_world tables policy attached) events
        → AlwaysHolds (first_tracked tables policy attached) events }
{}

/// One copy: in every schedule the acts at their places are a run of one store, and each reply is
/// its order's answer there, or the pool's own.
pub fn one_copy()
    ensures { (tables : List TableDef) (policy : ReadPolicy) (attached : BackendSet)
        (events : List Event) → AreAllowed tables → attached.bits < 256
        → OneCopy tables policy attached events }
{}

/// Behind every schedule in which no session is in a commit then, each attached backend has the
/// rows of the single run, and its next serial numbers where no serial insert is under way.
pub fn replicas_agree()
    ensures { (tables : List TableDef) (policy : ReadPolicy) (attached : BackendSet)
        (events : List Event) → AreAllowed tables → attached.bits < 256
        → AlwaysAgree tables policy attached events }
{}

/// Each backend that is attached when a commit is acknowledged has done it.
pub fn commits_are_done()
    ensures { (tables : List TableDef) (policy : ReadPolicy) (attached : BackendSet)
        (events : List Event) → AreAllowed tables → attached.bits < 256
        → CommitsAreDone tables policy attached events }
{}

/// Each detachment has its cause: a loss that was seen, or an answer that differs from the kept
/// one.
pub fn detachments_have_causes()
    ensures { (tables : List TableDef) (policy : ReadPolicy) (attached : BackendSet)
        (events : List Event) → AreAllowed tables → attached.bits < 256
        → IsSchedule (first_world tables policy attached) events
        → AreCaused (first_world tables policy attached) events }
{}

/// Where the invariant holds, a call of the gate that is due meets its condition there.
pub fn calls_meet_their_conditions()
    ensures { (t : Tracked) (s : SessionId) (call : GateCall) → Invariant t
        → next_action (t.world.machine s.number) ≡ Gate call → MayCall t.world.gate call }
{}
