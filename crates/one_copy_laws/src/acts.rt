//! What answers of stores keep.
ghost use Rattle.std.specs.Prelude.{◌≡◌, ℕ, Some, false};
ghost use Rattle.pool_base.specs.declared.session_id.SessionId.{SessionId};
ghost use Rattle.pool_base.specs.declared.backend_id.BackendId.{BackendId};
ghost use Rattle.backend_trait.specs.declared.answer.Answer.TheVariants.{Began, Locked, Refused};
ghost use Rattle.backend_trait.specs.declared.answer.Answer.{Answer};
ghost use Rattle.backend_trait.specs.declared.request.Request.TheVariants.{Commit, Lock, Rollback, Run, TakeSnapshot};
ghost use Rattle.backend_trait.specs.Store.{Pending, is_refusal};
ghost use Rattle.catalogue.specs.declared.checked.Checked.{Checked};
ghost use Rattle.schema.specs.Allowed.{AreAllowed};
ghost use Rattle.one_copy_model.specs.declared.event.Event.TheVariants.{Act};
ghost use Rattle.one_copy_model.specs.World.{MayHappen};
ghost use Rattle.one_copy_model.specs.Tracking.{Tracked, tracked_after};
ghost use Rattle.one_copy_model.specs.Invariant.{Invariant};
ghost use Rattle.pool_base.specs.declared.code.Code.{Code};

/// A transaction that begins keeps the invariant.
pub fn begin_keeps()
    ensures { (t : Tracked) (s : SessionId) (b : BackendId) (p : Pending)
        → Invariant t
        → (t.world.store b.number).pending s.number ≡ Some p
        → p.request ≡ TakeSnapshot
        → MayHappen t.world (Act s b Began)
        → Invariant (tracked_after t (Act s b Began)) }
{}

/// So does a rollback that is done.
pub fn rollback_keeps()
    ensures { (t : Tracked) (s : SessionId) (b : BackendId) (answer : Answer) (p : Pending)
        → Invariant t
        → (t.world.store b.number).pending s.number ≡ Some p
        → p.request ≡ Rollback
        → MayHappen t.world (Act s b answer)
        → Invariant (tracked_after t (Act s b answer)) }
{}

/// So does a commit that is done.
pub fn commit_keeps()
    ensures { (t : Tracked) (s : SessionId) (b : BackendId) (answer : Answer) (p : Pending)
        → Invariant t
        → (t.world.store b.number).pending s.number ≡ Some p
        → p.request ≡ Commit
        → MayHappen t.world (Act s b answer)
        → Invariant (tracked_after t (Act s b answer)) }
{}

/// So does a lock of a table that is granted.
pub fn lock_keeps()
    ensures { (t : Tracked) (s : SessionId) (b : BackendId) (p : Pending) (table : ℕ)
        → Invariant t
        → (t.world.store b.number).pending s.number ≡ Some p
        → p.request ≡ Lock table
        → MayHappen t.world (Act s b Locked)
        → Invariant (tracked_after t (Act s b Locked)) }
{}

/// So does the result of a statement, over tables that a schema can have.
pub fn result_keeps()
    ensures { (t : Tracked) (s : SessionId) (b : BackendId) (answer : Answer) (p : Pending)
        (checked : Checked) → Invariant t
        → (t.world.store b.number).pending s.number ≡ Some p
        → p.request ≡ Run checked
        → is_refusal answer ≡ false
        → AreAllowed t.world.tables
        → MayHappen t.world (Act s b answer)
        → Invariant (tracked_after t (Act s b answer)) }
{}

/// So does a refusal, with the deaths behind it.
pub fn refusal_keeps()
    ensures { (t : Tracked) (s : SessionId) (b : BackendId) (code : Code) (p : Pending)
        → Invariant t
        → (t.world.store b.number).pending s.number ≡ Some p
        → MayHappen t.world (Act s b (Refused code))
        → Invariant (tracked_after t (Act s b (Refused code))) }
{}

/// Every act of a store keeps it, over tables that a schema can have.
pub fn act_keeps()
    ensures { (t : Tracked) (s : SessionId) (b : BackendId) (answer : Answer) → Invariant t
        → AreAllowed t.world.tables
        → MayHappen t.world (Act s b answer)
        → Invariant (tracked_after t (Act s b answer)) }
{}
