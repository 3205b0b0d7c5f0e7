//! What holds of all plays.
ghost use Rattle.std.specs.Prelude.{◌<◌, ℤ, List, length};
ghost use Rattle.pool_base.specs.declared.backend_set.BackendSet.{BackendSet};
ghost use Rattle.schema.specs.declared.catalogue.TableDef.{TableDef};
ghost use Rattle.schema.specs.Allowed.{AreAllowed};
ghost use Rattle.session_orders.specs.declared.order.OrderBody.{OrderBody};
ghost use Rattle.session_machine.specs.declared.machine.ReadPolicy.{ReadPolicy};
ghost use Rattle.session_machine.specs.declared.machine.Session.{Session};
ghost use Rattle.session_seat.specs.Told.{Entry, lines};
ghost use Rattle.session_seat.specs.Shared.{IsReady, first_shared};
ghost use Rattle.session_seat.specs.Schedule.{State, first_state, IsSchedule};
ghost use Rattle.one_copy_model.specs.World.{IsOrderable};
ghost use Rattle.play_laws.specs.Runs.{IsRunOfOneStore};
ghost use Rattle.play_laws.specs.Following.{started, events_of};

/// A statement that is ready can be run on the tables, whatever the session and the moment.
pub fn orders_can_be_run()
    ensures { (tables : List TableDef) (session : Session) (moment : ℤ) (body : OrderBody)
        → AreAllowed tables → IsReady tables body
        → IsOrderable tables session moment body }
{}

/// What takes place in a play, and what its journal tells of it, is a schedule of the replicated
/// world, and so of one store.
pub fn plays_are_runs()
    ensures { (tables : List TableDef) (policy : ReadPolicy) (attached : BackendSet)
        (entries : List Entry) (last : State) → AreAllowed tables → attached.bits < 256
        → IsSchedule tables (first_state policy (first_shared tables attached)) entries last
        → IsRunOfOneStore (started tables policy attached) (lines tables entries)
        (length (events_of entries)) }
{}
