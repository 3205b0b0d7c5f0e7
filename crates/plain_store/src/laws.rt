//! What holds of every store.
ghost use Rattle.std.specs.Prelude.{◌≡◌, ℕ, false, None, codes};
ghost use Rattle.std.specs.FinMap.{get};
ghost use Rattle.pool_base.specs.declared.code.Code.{Code};
ghost use Rattle.catalogue.specs.declared.checked.Checked.{Checked};
ghost use Rattle.backend_trait.specs.declared.answer.Answer.{Answer};
ghost use Rattle.backend_trait.specs.declared.request.Request.TheVariants as requests;
ghost use Rattle.backend_trait.specs.declared.answer.Answer.TheVariants as answers;
ghost use Rattle.backend_trait.specs.Keys.{Place};
ghost use Rattle.backend_trait.specs.Store.{Store, Live, Alive, Pending, acted, is_refusal};
ghost use Rattle.backend_trait.specs.Acts.{IsCrossed, MayRun};

/// Between a result and 40001 a store has no choice.
pub fn first_updater_wins()
    ensures { (st : Store) (s : ℕ) (p : Pending) (checked : Checked) (answer : Answer)
        (code : Code) → is_refusal answer ≡ false
        → MayRun st s (IsCrossed st s p) checked answer → code.bytes ≡ codes "40001"
        → ¬ (MayRun st s (IsCrossed st s p) checked (answers.Refused code)) }
{}

/// A commit loses no row that its transaction did not change.
pub fn commits_keep_rows()
    ensures { (st : Store) (s : ℕ) (t : Live) (place : Place)
        → st.transaction s ≡ Alive t → get t.changes place ≡ None
        → get (acted st s requests.Commit answers.Done).rows place ≡ get st.rows place }
{}
