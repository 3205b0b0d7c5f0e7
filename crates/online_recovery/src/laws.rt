//! What holds of every run of a recovery.
ghost use Rattle.std.specs.Prelude.{false, List, None};
ghost use Rattle.pool_base.specs.declared.session_id.SessionId.{SessionId};
ghost use Rattle.session_machine.specs.declared.action.SessionEvent.{SessionEvent};
ghost use Rattle.online_recovery.specs.declared.layout.Layout.{Layout};
ghost use Rattle.online_recovery.specs.State.{new_standing};
ghost use Rattle.online_recovery.specs.Runs.{IsRun, outside, CallsMeet, RepliesMeet, AreNamed};

/// Each call of a recovery meets the gate's condition, by the calls that were granted before it: so
/// the target is attached under entered quiet alone. A recovery replies that it is done exactly
/// where its target was attached since its order. What it swaps and what it attaches is the backend
/// that its order names.
pub fn attaches_under_quiet()
    ensures calls { (id : SessionId) (layout : Layout) (events : List SessionEvent)
        → IsRun (new_standing id layout) events → CallsMeet outside events }
    ensures replies { (id : SessionId) (layout : Layout) (events : List SessionEvent)
        → IsRun (new_standing id layout) events → RepliesMeet false events }
    ensures named { (id : SessionId) (layout : Layout) (events : List SessionEvent)
        → IsRun (new_standing id layout) events → AreNamed None events }
{}
