//! What holds of a session's detachments by its machine alone.
ghost use Rattle.std.specs.Prelude.{List};
ghost use Rattle.pool_base.specs.declared.session_id.SessionId.{SessionId};
ghost use Rattle.session_machine.specs.declared.action.SessionEvent.{SessionEvent};
ghost use Rattle.session_machine.specs.declared.machine.ReadPolicy.{ReadPolicy};
ghost use Rattle.one_copy_laws.specs.Causes.{AlwaysWithCause};

/// Behind every list of events that a session's machine may take, whatever its backends answer, a
/// detachment that may come next has its cause: where the gate, behind the first answer of a chain,
/// shows no backend that the session did not see before.
pub fn machines_detach_with_cause()
    ensures { (id : SessionId) (policy : ReadPolicy) (events : List SessionEvent)
        → AlwaysWithCause id policy events }
{}
