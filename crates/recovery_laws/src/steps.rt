//! What holds of every list of steps.
ghost use Rattle.std.specs.Prelude.{◌≡◌, ◌<◌, ℕ, true, List, Some};
ghost use Rattle.pool_base.specs.Sets.{has};
ghost use Rattle.pool_base.specs.declared.session_id.SessionId.{SessionId};
ghost use Rattle.pool_base.specs.declared.backend_set.BackendSet.{BackendSet};
ghost use Rattle.schema.specs.Allowed.{AreAllowed};
ghost use Rattle.backend_trait.specs.declared.request.Request.TheVariants.{ReadSerial, TakeSnapshot};
ghost use Rattle.session_machine.specs.declared.machine.ReadPolicy.{ReadPolicy};
ghost use Rattle.online_recovery.specs.declared.layout.Layout.{Layout};
ghost use Rattle.one_copy_model.specs.Statement.{ReplicasAgree};
ghost use Rattle.one_copy_model.specs.Tracking.{single};
ghost use Rattle.recovery_laws.specs.declared.step.Step.{Step};
ghost use Rattle.recovery_laws.specs.Pool.{after, first_pool, pool_all, world_of, IsPlayed};
ghost use Rattle.recovery_laws.specs.Steps.{AllHold, AreFit};

/// Every list of steps is fit: each target is ready when it is attached, and each statement that a
/// recovery asks for can be run on the tables.
pub fn steps_are_fit()
    ensures { (layout : Layout) (policy : ReadPolicy) (attached : BackendSet) (steps : List Step)
        → AreAllowed layout.tables → attached.bits < 256
        → IsPlayed (first_pool layout policy attached) steps
        → AreFit (first_pool layout policy attached) steps }
{}

/// So the invariant holds at every step, each reply to a session is right, and each attached
/// backend has done each commit that it acknowledges, or was attached after it.
pub fn always_holds()
    ensures { (layout : Layout) (policy : ReadPolicy) (attached : BackendSet) (steps : List Step)
        → AreAllowed layout.tables → attached.bits < 256
        → IsPlayed (first_pool layout policy attached) steps
        → AllHold (first_pool layout policy attached) steps }
{}

/// There every attached backend, recovered or not, agrees with the single run behind the steps.
pub fn replicas_agree()
    ensures { (layout : Layout) (policy : ReadPolicy) (attached : BackendSet) (steps : List Step)
        → AreAllowed layout.tables → attached.bits < 256
        → IsPlayed (first_pool layout policy attached) steps
        → ReplicasAgree (pool_all (first_pool layout policy attached) steps).tracked }
{}

/// There an attached backend has the rows of the single run while a recovery asks it for a
/// snapshot, and its next number of a table while it asks for that.
pub fn bases_are_right()
    ensures rows { (layout : Layout) (policy : ReadPolicy) (attached : BackendSet)
        (steps : List Step) (s : SessionId) (b : ℕ)
        → AreAllowed layout.tables → attached.bits < 256
        → IsPlayed (first_pool layout policy attached) steps
        → (pool_all (first_pool layout policy attached) steps).asked s.number b
        ≡ Some TakeSnapshot
        → has (pool_all (first_pool layout policy attached) steps).gate.attached.bits b ≡ true
        → ((world_of (pool_all (first_pool layout policy attached) steps)).store b).rows
        ≡ (single (pool_all (first_pool layout policy attached) steps).tracked).rows }
    ensures numbers { (layout : Layout) (policy : ReadPolicy) (attached : BackendSet)
        (steps : List Step) (s : SessionId) (b table : ℕ)
        → AreAllowed layout.tables → attached.bits < 256
        → IsPlayed (first_pool layout policy attached) steps
        → (pool_all (first_pool layout policy attached) steps).asked s.number b
        ≡ Some (ReadSerial table)
        → has (pool_all (first_pool layout policy attached) steps).gate.attached.bits b ≡ true
        → ((world_of (pool_all (first_pool layout policy attached) steps)).store b).next table
        ≡ (single (pool_all (first_pool layout policy attached) steps).tracked).next table }
{}

/// There no step adds to the single run while a recovery has entered its quiet: its rows and its
/// next serial numbers stay.
pub fn quiet_adds_nothing()
    ensures { (layout : Layout) (policy : ReadPolicy) (attached : BackendSet) (steps : List Step)
        (step : Step) → AreAllowed layout.tables → attached.bits < 256
        → IsPlayed (first_pool layout policy attached) steps
        → (pool_all (first_pool layout policy attached) steps).gate.quiet ≡ 3
        → (after (pool_all (first_pool layout policy attached) steps) step).tracked.history
        ≡ (pool_all (first_pool layout policy attached) steps).tracked.history }
{}
