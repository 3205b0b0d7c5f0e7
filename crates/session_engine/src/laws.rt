//! Laws of the words of the clauses.
ghost use Rattle.std.specs.Prelude.{◌≡◌, ◌⊎◌, ◌↔◌, false, List};
ghost use Rattle.pool_base.specs.declared.gate_call.View.{View};
ghost use Rattle.pool_base.specs.declared.gate_call.GateCall.{GateCall};
ghost use Rattle.pool_base.specs.declared.gate_call.GateAnswer.TheVariants as answers;
ghost use Rattle.session_machine.specs.declared.action.SessionEvent.{SessionEvent};
ghost use Rattle.session_machine.specs.declared.action.SessionEvent.TheVariants as events;
ghost use Rattle.session_machine.specs.declared.machine.Point.{Point};
ghost use Rattle.session_machine.specs.declared.machine.Point.TheVariants as points;
ghost use Rattle.session_machine.specs.declared.machine.Machine.{Machine};
ghost use Rattle.session_machine.specs.declared.machine.Session.{Session};
ghost use Rattle.session_orders.specs.declared.outcome.Outcome.{Outcome};
ghost use Rattle.session_machine.specs.declared.status.Status.{Status};
ghost use Rattle.session_machine.specs.Allowed.{MayHappen};
ghost use Rattle.session_machine.specs.Rules.{due, after, next_action};
ghost use Rattle.session_engine.specs.Sound.{wants_memory};
ghost use Rattle.session_engine.specs.Handing.{handed};
ghost use Rattle.session_engine.specs.Tidying.{tidied, after_all};
ghost use Rattle.session_engine.specs.Committing.{IsCommitting, IsOver};

/// Once the gate has granted the entry into a commit, it is under way up to its reply or its end,
/// and nothing that is due until then wants memory.
pub fn commit_wants_nothing()
    ensures entered { (session : Session) → (call : GateCall) → (view : View) → IsCommitting (after
        (due session points.EnterCommitDue) (events.Called call (answers.Granted view))).point }
    ensures goes_on { (m : Machine) → (event : SessionEvent) → IsCommitting m.point
        → MayHappen m event
        → (IsCommitting (after m event).point ⊎ IsOver (after m event).point) }
    ensures under_way { (point : Point) → IsCommitting point → wants_memory point ≡ false }
    ensures over { (point : Point) → IsOver point → wants_memory point ≡ false }
{}

/// A reply that is handed out has been given, but for the answers behind it, which nothing reads: a
/// session without them may take the same events, and after any of them the same is due.
pub fn unread_answers_are_dropped()
    ensures reply { (session : Session) → (outcome : Outcome) → (status : Status)
        → handed (due session (points.ReplyDue outcome)) ≡ tidied (after
        (due session (points.ReplyDue outcome)) (events.Replied outcome status)) }
    ensures end { (session : Session) → handed (due session points.EndDue) ≡ after
        (due session points.EndDue) events.Ended }
    ensures may { (m : Machine) → (event : SessionEvent)
        → (MayHappen (tidied m) event ↔ MayHappen m event) }
    ensures leads { (m : Machine) → (event : SessionEvent)
        → tidied (after (tidied m) event) ≡ tidied (after m event) }
    ensures acts { (m : Machine) → (events : List SessionEvent)
        → next_action (after_all (tidied m) events) ≡ next_action (after_all m events) }
{}
