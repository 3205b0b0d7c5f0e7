//! What holds of all texts.
ghost use Rattle.std.specs.Prelude.{ℕ, List};
ghost use Rattle.std.specs.List.{AllByRecursion};
ghost use Rattle.sql_tree.specs.declared.statement.Statement.{Statement};
ghost use Rattle.sql_reader.specs.Text.{IsTextOf};
ghost use Rattle.sql_profile.specs.Formed.{IsFormed};

/// Each statement of a text is of the grammar; a name that it gives an item of a list is at most 63
/// bytes long, and it has at most 65537 rows.
pub fn texts_are_formed()
    ensures { (text : List ℕ) (all : List Statement) → IsTextOf text all
        → AllByRecursion IsFormed all }
{}
