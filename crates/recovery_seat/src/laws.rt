//! What holds of all plays.
ghost use Rattle.std.specs.Prelude.{◌≡◌, List};
ghost use Rattle.schema.specs.declared.catalogue.TableDef.{TableDef};
ghost use Rattle.session_machine.specs.declared.machine.ReadPolicy.{ReadPolicy};
ghost use Rattle.online_recovery.specs.declared.layout.Layout.{Layout};
ghost use Rattle.session_seat.specs.Shared.{Shared};
ghost use Rattle.session_seat.specs.Told.{lines as session_lines};
ghost use Rattle.session_seat.specs.Schedule.{first_state as first_sessions, IsSchedule as IsOfSessions};
ghost use Rattle.recovery_seat.specs.Schedule.{Entry, State, first_state, lines, IsSchedule, AreOfSessions};
ghost use Rattle.recovery_seat.specs.Sessions.{sessions_of, sessions_in};

/// Where no recovery is ordered a play is one of the sessions alone, which ends with the same, and
/// its journal tells the same.
pub fn without_recoveries()
    ensures plays { (tables : List TableDef) (policy : ReadPolicy) (layout : Layout)
        (shared : Shared) (entries : List Entry) (last : State) → AreOfSessions entries
        → IsSchedule tables (first_state policy layout shared) entries last
        → IsOfSessions tables (first_sessions policy shared) (sessions_of entries)
        (sessions_in last) }
    ensures told { (tables : List TableDef) (entries : List Entry) → AreOfSessions entries
        → lines tables entries ≡ session_lines tables (sessions_of entries) }
{}
