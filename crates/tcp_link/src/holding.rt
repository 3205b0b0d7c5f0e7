//! Why the end of a block that has changed nothing may be held back from its server.
ghost use Rattle.std.specs.Prelude.{◌≡◌, ℕ};
ghost use Rattle.backend_trait.specs.declared.answer.Answer.{Answer};
ghost use Rattle.backend_trait.specs.declared.answer.Answer.TheVariants.{Done};
ghost use Rattle.backend_trait.specs.declared.request.Request.TheVariants.{Commit, Rollback};
ghost use Rattle.backend_trait.specs.Acts.{MayAnswer, MustWait};
ghost use Rattle.backend_trait.specs.Rows.{no_changes};
ghost use Rattle.backend_trait.specs.Store.{Alive, Live, Pending, Store, acted};
ghost use Rattle.postgres_talk.specs.declared.spelled.Ending.{Ending};
ghost use Rattle.tcp_link.specs.Debts.{ends_by};

/// An honest store has one answer to the end of a block, and never waits with it. A block that has
/// changed nothing ends by COMMIT as it ends by ROLLBACK: the rows and the other sessions'
/// transactions are as they were, so nobody else can tell when it has ended.
pub fn ends_may_be_held_back()
    ensures one { (st : Store) (s : ℕ) (p : Pending) (answer : Answer) (ending : Ending)
        → p.request ≡ ends_by ending → MayAnswer st s p answer → answer ≡ Done }
    ensures prompt { (st : Store) (s : ℕ) (ending : Ending) → MustWait st s (ends_by ending) → ⊥ }
    ensures unseen { (st : Store) (s : ℕ) (t : Live) → st.transaction s ≡ Alive t
        → t.changes ≡ no_changes → acted st s Commit Done ≡ acted st s Rollback Done }
{}
