//! What holds of the posts that are coming.
ghost use Rattle.std.specs.Prelude.{◌≡◌, ◌⊎◌, ℕ, [], ◌∷◌, ◌++◌, false};
ghost use Rattle.pool_base.specs.declared.backend_id.BackendId.{BackendId};
ghost use Rattle.backend_trait.specs.declared.request.Request.{Request};
ghost use Rattle.backend_trait.specs.declared.request.Request.TheVariants as requests;
ghost use Rattle.catalogue.specs.declared.checked.Checked.{Checked};
ghost use Rattle.session_machine.specs.declared.action.SessionEvent.{SessionEvent};
ghost use Rattle.session_machine.specs.declared.action.SessionEvent.TheVariants as events;
ghost use Rattle.session_machine.specs.declared.machine.Point.TheVariants as points;
ghost use Rattle.session_machine.specs.declared.machine.Machine.{Machine};
ghost use Rattle.session_machine.specs.declared.machine.Session.{Session};
ghost use Rattle.session_machine.specs.Allowed.{MayHappen};
ghost use Rattle.session_machine.specs.Rules.{due, after};
ghost use Rattle.session_engine.specs.Sound.{IsFresh};
ghost use Rattle.session_ahead.specs.declared.post.Post.{Post};
ghost use Rattle.session_ahead.specs.Coming.{post_of, coming};
ghost use Rattle.session_ahead.specs.Turns.{IsAmong, StartsWith, posted_by, IsStraight, IsKept, IsGone, Commits, Closes, RollsBack, IsEntry, has_changed, reads_at, InsertsSerial, IsDue, Waits};

/// What is coming stays in front of what is coming, or is posted, up to the next turn.
pub fn told_stays()
    ensures { (m : Machine) → (event : SessionEvent) → MayHappen m event → IsStraight m event
        → StartsWith (posted_by event ++ coming (after m event)) (coming m) }
{}

/// A request that may be posted is the first that is coming.
pub fn only_fronts_are_posted()
    ensures { (m : Machine) → (b : BackendId) → (request : Request)
        → MayHappen m (events.Posted b request)
        → StartsWith (coming m) (post_of request b ∷ []) }
{}

/// A commit is coming only where the gate has let the commit in, or where there is nothing to
/// commit.
pub fn commits_are_entered()
    ensures coming { (m : Machine) → (post : Post) → IsAmong post (coming m)
        → post.request ≡ requests.Commit → (Commits m.point ⊎ Closes m.point) }
    ensures entry { (m : Machine) → (event : SessionEvent) → MayHappen m event
        → Commits (after m event).point → (Commits m.point ⊎ IsEntry event) }
    ensures nothing { (m : Machine) → (event : SessionEvent) → MayHappen m event
        → Closes (after m event).point
        → (Closes m.point ⊎ (has_changed m.session.gate ≡ false)) }
{}

/// Nothing takes a commit back that the gate has let in, but the detachment of its backend.
pub fn commits_are_kept()
    ensures { (m : Machine) → (event : SessionEvent) → (post : Post) → Commits m.point
        → IsAmong post (coming m) → MayHappen m event
        → (IsKept m event post ⊎ IsGone m event post) }
{}

/// Nothing takes a rollback back, but the detachment of its backend.
pub fn ends_are_kept()
    ensures { (m : Machine) → (event : SessionEvent) → (post : Post) → RollsBack m.point
        → IsFresh m.session.heard m.point → IsAmong post (coming m) → MayHappen m event
        → (IsKept m event post ⊎ IsGone m event post) }
{}

/// A statement that is no plain read is coming at the primary alone, until the primary has answered
/// and has not refused; a serial insert is coming at the others once it is posted.
pub fn writes_wait()
    ensures { (m : Machine) → (post : Post) → (checked : Checked) → IsAmong post (coming m)
        → post.request ≡ requests.Run checked → reads_at m.point ≡ false
        → (IsDue m post ⊎ (InsertsSerial m.point ⊎ Waits m.session post.b)) }
{}

/// So does a lock.
pub fn locks_wait()
    ensures { (m : Machine) → (post : Post) → (table : ℕ) → IsAmong post (coming m)
        → post.request ≡ requests.Lock table
        → (IsDue m post ⊎ Waits m.session post.b) }
{}

/// At rest nothing is coming.
pub fn nothing_at_rest()
    ensures { (session : Session) → coming (due session points.Resting) ≡ [] }
{}
