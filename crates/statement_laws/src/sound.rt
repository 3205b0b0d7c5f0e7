//! What holds of all checks.
ghost use Rattle.std.specs.Prelude.{◌≡◌, ℕ, List, Option, Ok, true};
ghost use Rattle.schema.specs.declared.catalogue.TableDef.{TableDef};
ghost use Rattle.schema.specs.Allowed.{AreAllowed};
ghost use Rattle.sql_tree.specs.declared.statement.Statement.{Statement};
ghost use Rattle.sql_tree.specs.Trees.{IsStatement};
ghost use Rattle.catalogue.specs.declared.checked.Checked.{Checked};
ghost use Rattle.catalogue.specs.Checking.{AnswersCheck};
ghost use Rattle.checked_sql.specs.OfCatalogue.{is_of};
ghost use Rattle.statement_laws.specs.Few.{HasFewRows};

/// What a check of a statement of the grammar answers is of its tables, which a schema can have.
pub fn answers_are_of()
    ensures { (tables : List TableDef) (statement : Statement) (kinds : Option (List ℕ))
        (checked : Checked) → AreAllowed tables → IsStatement statement → HasFewRows statement
        → AnswersCheck tables statement kinds (Ok checked) → is_of tables checked ≡ true }
{}
