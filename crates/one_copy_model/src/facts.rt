//! What holds of the facts.
ghost use Rattle.std.specs.Prelude.{◌≡◌, ℕ, true};
ghost use Rattle.one_copy_model.specs.Deaths.{is_alive, is_live};
ghost use Rattle.one_copy_model.specs.Tracking.{Tracked, single};
ghost use Rattle.one_copy_model.specs.Invariant.{Invariant};
ghost use Rattle.one_copy_model.specs.Moments.{FactsAt};

/// The invariant is its facts by their parts, and that who is live in the single run is alive at an
/// attached backend.
pub fn facts_are_the_invariant()
    ensures parts { (t : Tracked) → Invariant t → FactsAt t }
    ensures whole { (t : Tracked) → FactsAt t
        → ((s : ℕ) → is_live ((single t).transaction s) ≡ true → is_alive t.world s ≡ true)
        → Invariant t }
{}
