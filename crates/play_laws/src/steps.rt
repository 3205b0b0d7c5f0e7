//! What holds of all plays with recoveries.
ghost use Rattle.std.specs.Prelude.{◌<◌, List, length};
ghost use Rattle.pool_base.specs.declared.backend_set.BackendSet.{BackendSet};
ghost use Rattle.schema.specs.Allowed.{AreAllowed};
ghost use Rattle.session_machine.specs.declared.machine.ReadPolicy.{ReadPolicy};
ghost use Rattle.session_seat.specs.Shared.{first_shared};
ghost use Rattle.online_recovery.specs.declared.layout.Layout.{Layout};
ghost use Rattle.recovery_laws.specs.Pool.{first_pool, pool_all, IsPlayed};
ghost use Rattle.recovery_laws.specs.Steps.{AllHold};
ghost use Rattle.recovery_seat.specs.Schedule.{Entry, State, first_state, lines, IsSchedule};
ghost use Rattle.play_laws.specs.RecoveryFollowing.{Follows, steps_of};

/// What takes place in a play of tables that a schema can have, whose journal is shorter than 2 to
/// the 64 bytes, is a list of steps of the replicated world with recoveries that begins with the
/// same backends; and the world behind the steps stands as the play does. So it is of one store: at
/// every step the invariant holds, each reply to a session is right, and each attached backend has
/// done each commit that it acknowledges, or was attached after it.
pub fn plays_are_steps()
    ensures steps { (policy : ReadPolicy) (layout : Layout) (attached : BackendSet)
        (entries : List Entry) (last : State) → AreAllowed layout.tables → attached.bits < 256
        → length (lines layout.tables entries) < 18446744073709551616
        → IsSchedule layout.tables (first_state policy layout (first_shared layout.tables attached))
        entries last
        → IsPlayed (first_pool layout policy attached) (steps_of entries)
        × Follows layout.tables last
        (pool_all (first_pool layout policy attached) (steps_of entries)) }
    ensures one_store { (policy : ReadPolicy) (layout : Layout) (attached : BackendSet)
        (entries : List Entry) (last : State) → AreAllowed layout.tables → attached.bits < 256
        → length (lines layout.tables entries) < 18446744073709551616
        → IsSchedule layout.tables (first_state policy layout (first_shared layout.tables attached))
        entries last
        → AllHold (first_pool layout policy attached) (steps_of entries) }
{}
