//! What holds of all texts.
ghost use Rattle.std.specs.Prelude.{◌≡◌, ℕ, ℤ, List, [], ◌∷◌, None, Ok};
ghost use Rattle.pg_values.specs.Range.{IsMoment};
ghost use Rattle.schema.specs.declared.catalogue.TableDef.{TableDef};
ghost use Rattle.schema.specs.Allowed.{AreAllowed};
ghost use Rattle.sql_tree.specs.declared.statement.Statement.{Statement};
ghost use Rattle.sql_reader.specs.Text.{IsTextOf};
ghost use Rattle.catalogue.specs.declared.checked.Checked.{Checked};
ghost use Rattle.catalogue.specs.Checking.{AnswersCheck};
ghost use Rattle.classifier.specs.Classes.{lock_of};
ghost use Rattle.time_rewrite.specs.Rewriting.{at_moment};
ghost use Rattle.backend_trait.specs.Runnable.{IsRunnable};

/// A statement that a text is and that is checked can be run at a moment by a store of the tables,
/// unless it takes a lock first.
pub fn can_be_run()
    ensures { (tables : List TableDef) (text : List ℕ) (s : Statement) (checked : Checked)
        (moment : ℤ) → AreAllowed tables → IsTextOf text (s ∷ [])
        → AnswersCheck tables s None (Ok checked) → IsMoment moment
        → lock_of checked.body ≡ None → IsRunnable tables (at_moment moment checked) }
{}
