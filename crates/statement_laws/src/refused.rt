//! What holds of all refusals.
ghost use Rattle.std.specs.Prelude.{◌≤◌, ℕ, List, [], ◌∷◌, None, Err, length};
ghost use Rattle.pool_base.specs.declared.code.Code.{Code};
ghost use Rattle.schema.specs.declared.catalogue.TableDef.{TableDef};
ghost use Rattle.sql_tree.specs.declared.statement.Statement.{Statement};
ghost use Rattle.sql_reader.specs.declared.fault.SqlFault.TheVariants.{Outside, Syntax};
ghost use Rattle.sql_reader.specs.Text.{IsRefusedBy, IsTextOf};
ghost use Rattle.typed_sql.specs.declared.fault.CheckFault.TheVariants.{Refused};
ghost use Rattle.catalogue.specs.Checking.{AnswersCheck};
ghost use Rattle.statement_laws.specs.Told.{IsTold};

/// A name that a refusal tells has at most 63 bytes, and none of them is 0: a refusal of the reader
/// and one of the check of a text's one statement. A place that the reader tells is in it.
pub fn names_are_short()
    ensures read { (text name : List ℕ) (place : ℕ) → IsRefusedBy text (Outside name place)
        → IsTold name }
    ensures place { (text : List ℕ) (place : ℕ) → IsRefusedBy text (Syntax place)
        → place ≤ length text }
    ensures checked { (tables : List TableDef) (text : List ℕ) (s : Statement) (code : Code)
        (name : List ℕ) → IsTextOf text (s ∷ [])
        → AnswersCheck tables s None (Err (Refused code name)) → IsTold name }
{}
