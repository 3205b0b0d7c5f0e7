//! What the single run asks for an order.
ghost use Rattle.std.specs.Prelude.{List};
ghost use Rattle.pool_base.specs.declared.backend_set.BackendSet.{BackendSet};
ghost use Rattle.session_machine.specs.declared.machine.ReadPolicy.{ReadPolicy};
ghost use Rattle.online_recovery.specs.declared.layout.Layout.{Layout};
ghost use Rattle.recovery_laws.specs.declared.step.Step.{Step};
ghost use Rattle.recovery_laws.specs.Pool.{first_pool};
ghost use Rattle.recovery_laws.specs.Steps.{AllHold};
ghost use Rattle.play_laws.specs.Asked.{AlwaysAsks};

/// What the single run asks since an order came is for that order: for a statement a snapshot, the
/// lock of its table and the statement, as it is written at its moment; for the end of a
/// transaction a COMMIT; for any order a ROLLBACK.
pub fn runs_ask_for_orders()
    ensures { (policy : ReadPolicy) (layout : Layout) (attached : BackendSet) (steps : List Step)
        → AllHold (first_pool layout policy attached) steps
        → AlwaysAsks (first_pool layout policy attached) steps }
{}
