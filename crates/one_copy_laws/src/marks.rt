//! What the invariant says of crossings.
ghost use Rattle.std.specs.Prelude.{◌≡◌, ℕ, true, false, Some};
ghost use Rattle.backend_trait.specs.Store.{Pending};
ghost use Rattle.backend_trait.specs.Acts.{Crosses};
ghost use Rattle.one_copy_model.specs.Tracking.{Tracked, single};
ghost use Rattle.one_copy_model.specs.Invariant.{Invariant, IsHere};

/// Where the invariant holds, a request that another session crosses at an attached backend that is
/// not lost is crossed in the single run, where the statement waits.
pub fn crossings_carry()
    ensures { (t : Tracked) (b s : ℕ) (p q : Pending) → Invariant t → IsHere t.world b
        → (t.world.store b).lost ≡ false → (t.world.store b).pending s ≡ Some p
        → (single t).pending s ≡ Some q
        → Crosses (t.world.store b) s p.request → Crosses (single t) s q.request }
{}

/// Where the invariant holds, who is crossed in the single run has a mark there.
pub fn crossings_marked()
    ensures { (t : Tracked) (s : ℕ) (q : Pending) → Invariant t → (single t).pending s ≡ Some q
        → Crosses (single t) s q.request → q.crossed ≡ true }
{}
