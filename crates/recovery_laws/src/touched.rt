//! What the masks of the sessions, and the tables that are touched, say of the single run.
ghost use Rattle.std.specs.Prelude.{◌≡◌, ◌<◌, false, List};
ghost use Rattle.std.specs.FinMap as fin;
ghost use Rattle.pool_base.specs.declared.backend_set.BackendSet.{BackendSet};
ghost use Rattle.schema.specs.Allowed.{AreAllowed};
ghost use Rattle.backend_trait.specs.Keys.{Place};
ghost use Rattle.session_machine.specs.declared.machine.ReadPolicy.{ReadPolicy};
ghost use Rattle.online_recovery.specs.declared.layout.Layout.{Layout};
ghost use Rattle.online_recovery.specs.State.{is_touched};
ghost use Rattle.one_copy_model.specs.Tracking.{single};
ghost use Rattle.recovery_laws.specs.declared.step.Step.{Step};
ghost use Rattle.recovery_laws.specs.Pool.{first_pool, pool_all, IsPlayed};
ghost use Rattle.recovery_laws.specs.Masks.{IsQuietAlong, Masked};

/// Behind every list of steps what a live transaction of the single run has changed is in tables of
/// its session's mask.
pub fn changes_are_masked()
    ensures { (layout : Layout) (policy : ReadPolicy) (attached : BackendSet) (steps : List Step)
        → AreAllowed layout.tables → attached.bits < 256
        → IsPlayed (first_pool layout policy attached) steps
        → Masked (pool_all (first_pool layout policy attached) steps).tracked }
{}

/// While some recovery has the gate's quiet, a row of a table that is not touched at the end is at
/// the end what it was in the single run.
pub fn untouched_rows_stay()
    ensures { (layout : Layout) (policy : ReadPolicy) (attached : BackendSet)
        (before steps : List Step) (q : Place) → AreAllowed layout.tables → attached.bits < 256
        → IsPlayed (first_pool layout policy attached) before
        → IsPlayed (pool_all (first_pool layout policy attached) before) steps
        → IsQuietAlong (pool_all (first_pool layout policy attached) before) steps
        → is_touched (pool_all (pool_all (first_pool layout policy attached) before)
        steps).gate.touched q.table ≡ false
        → fin.get (single (pool_all (pool_all (first_pool layout policy attached) before)
        steps).tracked).rows q
        ≡ fin.get (single (pool_all (first_pool layout policy attached) before).tracked).rows q }
{}
