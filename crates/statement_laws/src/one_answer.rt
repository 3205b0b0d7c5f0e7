//! What holds of what all checks answer.
ghost use Rattle.std.specs.Prelude.{◌≡◌, ℕ, List, Option, Ok, Err};
ghost use Rattle.pool_base.specs.declared.code.Code.{Code};
ghost use Rattle.schema.specs.declared.catalogue.TableDef.{TableDef};
ghost use Rattle.sql_tree.specs.declared.statement.Statement.{Statement};
ghost use Rattle.typed_sql.specs.declared.fault.CheckFault.TheVariants.{Refused};
ghost use Rattle.catalogue.specs.declared.checked.Checked.{Checked};
ghost use Rattle.catalogue.specs.Checking.{AnswersCheck};

/// What a statement is over tables is one checked statement at most.
pub fn checks_agree()
    ensures { (tables : List TableDef) (statement : Statement) (kinds : Option (List ℕ))
        (a b : Checked) → AnswersCheck tables statement kinds (Ok a)
        → AnswersCheck tables statement kinds (Ok b) → a ≡ b }
{}

/// The first fault of a statement over tables has one code and one name.
pub fn refusals_agree()
    ensures { (tables : List TableDef) (statement : Statement) (kinds : Option (List ℕ))
        (a b : Code) (name called : List ℕ)
        → AnswersCheck tables statement kinds (Err (Refused a name))
        → AnswersCheck tables statement kinds (Err (Refused b called))
        → (a.bytes ≡ b.bytes) × (name ≡ called) }
{}

/// No statement is both checked and refused over the same tables.
pub fn none_is_checked_and_refused()
    ensures { (tables : List TableDef) (statement : Statement) (kinds : Option (List ℕ))
        (checked : Checked) (code : Code) (name : List ℕ)
        → AnswersCheck tables statement kinds (Ok checked)
        → ¬ (AnswersCheck tables statement kinds (Err (Refused code name))) }
{}
