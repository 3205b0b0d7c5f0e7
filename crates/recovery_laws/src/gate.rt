//! What holds of every list of steps.
ghost use Rattle.std.specs.Prelude.{◌≡◌, ◌+◌, ℕ, true, List, []};
ghost use Rattle.pool_base.specs.declared.gate_call.GateAnswer.TheVariants.{Held};
ghost use Rattle.pool_base.specs.declared.gate_call.GateCall.TheVariants.{EnterQuiet};
ghost use Rattle.pool_base.specs.Sets.{has};
ghost use Rattle.pool_base.specs.declared.backend_set.BackendSet.{BackendSet};
ghost use Rattle.schema.specs.Allowed.{AreAllowed};
ghost use Rattle.session_machine.specs.declared.machine.ReadPolicy.{ReadPolicy};
ghost use Rattle.snapshot_gate.specs.Function.{refuse, step};
ghost use Rattle.snapshot_gate.specs.Runs.{AreApart};
ghost use Rattle.online_recovery.specs.declared.action.RecoveryAction.TheVariants.{Gate};
ghost use Rattle.online_recovery.specs.Rules.{next_action};
ghost use Rattle.online_recovery.specs.declared.layout.Layout.{Layout};
ghost use Rattle.one_copy_model.specs.declared.event.Event.{Event};
ghost use Rattle.one_copy_model.specs.World.{first_world, IsSchedule};
ghost use Rattle.one_copy_model.specs.Tracking.{first_tracked, tracked_all};
ghost use Rattle.recovery_laws.specs.declared.step.Step.{Step};
ghost use Rattle.recovery_laws.specs.Pool.{first_pool, pool_all, served, world_of, IsPlayed, Pool};
ghost use Rattle.recovery_laws.specs.Waiting.{IsRecoveryBlocked};
ghost use Rattle.recovery_laws.specs.Counting.{CountsBoth};
ghost use Rattle.recovery_laws.specs.Phases.{all_outside, phases_all, IsStill, QuietIsOne};
ghost use Rattle.recovery_laws.specs.Sample.{of_none, first_alone, one_recovery, too_early};

/// Snapshots and commits are never under way together, whatever the sessions and their recoveries
/// do.
pub fn never_together()
    ensures { (layout : Layout) (policy : ReadPolicy) (attached : BackendSet) (steps : List Step)
        → IsPlayed (first_pool layout policy attached) steps
        → AreApart (pool_all (first_pool layout policy attached) steps).gate }
{}

/// While a recovery has entered its quiet, nobody is in a snapshot or has a transaction: neither a
/// session nor a recovery.
pub fn quiet_is_still()
    ensures { (layout : Layout) (policy : ReadPolicy) (attached : BackendSet) (steps : List Step)
        → IsPlayed (first_pool layout policy attached) steps
        → IsStill (pool_all (first_pool layout policy attached) steps).gate }
{}

/// One recovery at most has the gate's quiet, by the calls that each was granted; and the gate's
/// quiet is what that one was granted.
pub fn quiet_is_of_one()
    ensures { (layout : Layout) (policy : ReadPolicy) (attached : BackendSet) (steps : List Step)
        → IsPlayed (first_pool layout policy attached) steps
        → QuietIsOne (pool_all (first_pool layout policy attached) steps).gate
        (phases_all all_outside steps) }
{}

/// The gate counts the sessions, as their own gate does, and the recoveries; all else of the two
/// gates is the same.
pub fn counts_are_of_both()
    ensures { (layout : Layout) (policy : ReadPolicy) (attached : BackendSet) (steps : List Step)
        → IsPlayed (first_pool layout policy attached) steps
        → CountsBoth (pool_all (first_pool layout policy attached) steps).gate
        (world_of (pool_all (first_pool layout policy attached) steps)).gate
        (phases_all all_outside steps) }
{}

/// Where no recovery is ordered this is the world of the sessions: the same lists of events may
/// take place, and they lead to the same.
pub fn without_recoveries()
    ensures only { (layout : Layout) (policy : ReadPolicy) (attached : BackendSet)
        (events : List Event)
        → IsPlayed (first_pool layout policy attached) (served events)
        → IsSchedule (first_world layout.tables policy attached) events }
    ensures all { (layout : Layout) (policy : ReadPolicy) (attached : BackendSet)
        (events : List Event)
        → IsSchedule (first_world layout.tables policy attached) events
        → IsPlayed (first_pool layout policy attached) (served events) }
    ensures same { (layout : Layout) (policy : ReadPolicy) (attached : BackendSet)
        (events : List Event)
        → (pool_all (first_pool layout policy attached) (served events)).tracked
        ≡ tracked_all (first_tracked layout.tables policy attached) events }
{}

/// The gate holds a recovery off its quiet exactly where the recovery is blocked.
pub fn held_off_is_blocked()
    ensures held { (p : Pool) (s n : ℕ) → next_action (p.recovery s) ≡ Gate EnterQuiet
        → step p.gate EnterQuiet ≡ refuse p.gate (Held n) → IsRecoveryBlocked p s }
    ensures blocked { (p : Pool) (s : ℕ) → IsRecoveryBlocked p s
        → step p.gate EnterQuiet ≡ refuse p.gate (Held (p.gate.snaps + p.gate.live)) }
{}

/// A recovery takes place from its order to its reply, and its target is attached at the end; and
/// none takes place in which the target is attached behind stage one.
pub fn a_recovery_takes_place()
    ensures played { (allowed : ∥ AreAllowed [] ∥₁) (policy : ReadPolicy)
        → IsPlayed (first_pool (of_none allowed) policy first_alone) one_recovery }
    ensures attached { (allowed : ∥ AreAllowed [] ∥₁) (policy : ReadPolicy)
        → has (pool_all (first_pool (of_none allowed) policy first_alone)
        one_recovery).gate.attached.bits 1 ≡ true }
    ensures early { (allowed : ∥ AreAllowed [] ∥₁) (policy : ReadPolicy)
        → ¬ (IsPlayed (first_pool (of_none allowed) policy first_alone) too_early) }
{}
