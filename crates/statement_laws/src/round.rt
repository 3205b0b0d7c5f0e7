//! What holds of all checked statements.
ghost use Rattle.std.specs.Prelude.{◌≡◌, ℕ, List, Option, Result, true};
ghost use Rattle.schema.specs.declared.catalogue.TableDef.{TableDef};
ghost use Rattle.schema.specs.Allowed.{AreAllowed};
ghost use Rattle.sql_tree.specs.Trees.{IsStatement};
ghost use Rattle.typed_sql.specs.declared.fault.CheckFault.{CheckFault};
ghost use Rattle.catalogue.specs.declared.checked.Checked.{Checked};
ghost use Rattle.catalogue.specs.Checking.{AnswersCheck};
ghost use Rattle.checked_sql.specs.OfCatalogue.{is_of};
ghost use Rattle.checked_print.specs.Statements.{spelled_statement};
ghost use Rattle.statement_laws.specs.Again.{GivesKinds, IsAgain};
ghost use Rattle.checked_print.specs.Ranges.{is_held_statement};

/// A check of the statement that a checked statement is spelled as accepts it, and what it answers
/// has the same effect on every view: over tables that a schema can have, of which the checked
/// statement is, with the types of its parameters.
pub fn spelled_has_the_effect()
    ensures { (tables : List TableDef) (checked : Checked) (kinds : Option (List ℕ))
        (result : Result Checked CheckFault)
        → AreAllowed tables → is_of tables checked ≡ true → is_held_statement checked ≡ true
        → GivesKinds kinds checked.kinds
        → AnswersCheck tables (spelled_statement tables checked) kinds result
        → IsAgain tables checked result }
{}

/// The statement that a checked statement is spelled as is of the grammar.
pub fn spelled_is_of_the_grammar()
    ensures { (tables : List TableDef) (checked : Checked) → AreAllowed tables
        → is_of tables checked ≡ true → is_held_statement checked ≡ true
        → IsStatement (spelled_statement tables checked) }
{}
