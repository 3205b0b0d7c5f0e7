//! What holds after every history.
ghost use Rattle.std.specs.Prelude.{List};
ghost use Rattle.pool_base.specs.declared.backend_set.BackendSet.{BackendSet};
ghost use Rattle.snapshot_gate.specs.Function.{first};
ghost use Rattle.snapshot_gate.specs.Runs.{AreApart};
ghost use Rattle.shared_gate.specs.declared.history.Entry.{Entry};
ghost use Rattle.shared_gate.specs.History.{IsReplay, state_after};

/// Snapshots and commits are never under way together, in whatever order the threads' calls stand.
pub fn history_keeps_apart()
    ensures apart { (attached : BackendSet) (log : List Entry) → IsReplay (first attached) log
        → AreApart (state_after (first attached) log) }
{}
