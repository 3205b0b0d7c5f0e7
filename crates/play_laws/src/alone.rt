//! What holds of plays of one session.
ghost use Rattle.std.specs.Prelude.{ℕ, List};
ghost use Rattle.pool_base.specs.declared.backend_set.BackendSet.{BackendSet};
ghost use Rattle.session_machine.specs.declared.machine.ReadPolicy.{ReadPolicy};
ghost use Rattle.online_recovery.specs.declared.layout.Layout.{Layout};
ghost use Rattle.recovery_laws.specs.Pool.{first_pool, pool_all};
ghost use Rattle.recovery_laws.specs.Steps.{AllHold};
ghost use Rattle.recovery_seat.specs.Schedule.{Entry, State};
ghost use Rattle.play_laws.specs.Alone.{IsAlone};
ghost use Rattle.play_laws.specs.OneSession.{AreOfSession};
ghost use Rattle.play_laws.specs.RecoveryFollowing.{Follows, steps_of};

/// Where one session alone does anything in a play, the single run is of that session alone. Nobody
/// crosses it: each statement is answered with what it gives on the committed rows, with the
/// session's own changes over them, and each lock is had at once; or a request is refused for want
/// of memory.
pub fn one_session_is_alone()
    ensures { (policy : ReadPolicy) (layout : Layout) (attached : BackendSet)
        (entries : List Entry) (last : State) (s : ℕ) → AreOfSession s entries
        → AllHold (first_pool layout policy attached) (steps_of entries)
        → Follows layout.tables last
        (pool_all (first_pool layout policy attached) (steps_of entries))
        → IsAlone layout.tables s
        (pool_all (first_pool layout policy attached) (steps_of entries)).tracked.history }
{}
