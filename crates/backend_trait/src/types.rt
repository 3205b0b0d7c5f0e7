//! What holds of all expressions whose nodes have their types, and of statements made of them.
ghost use Rattle.std.specs.Prelude.{◌≡◌, ℤ, All, List, Ok, [], true};
ghost use Rattle.std.specs.List.{list_all};
ghost use Rattle.schema.specs.declared.catalogue.ColumnDef.{ColumnDef};
ghost use Rattle.schema.specs.declared.catalogue.TableDef.{TableDef};
ghost use Rattle.schema.specs.Allowed.{AreAllowed};
ghost use Rattle.typed_sql.specs.declared.typed.TypedExpr.{TypedExpr};
ghost use Rattle.catalogue.specs.declared.checked.Checked.{Checked};
ghost use Rattle.checked_sql.specs.Sound.{is_sound};
ghost use Rattle.checked_sql.specs.OfCatalogue.{around, is_of};
ghost use Rattle.sql_values.specs.Meaning.{value_in};
ghost use Rattle.sql_eval.specs.declared.row.Row.{Row};
ghost use Rattle.sql_eval.specs.declared.effect.Change.{Change};
ghost use Rattle.sql_eval.specs.declared.effect.ReadEffect.{ReadEffect};
ghost use Rattle.sql_eval.specs.Views.{View};
ghost use Rattle.sql_eval.specs.Effects.{Reads, Writes, given_by};
ghost use Rattle.sql_eval.specs.Reads.{alone, at_row};
ghost use Rattle.backend_trait.specs.Typed.{IsOutcomeOf, is_row_of, has_columns, AreAllStored, IsChangeStored};

/// An expression whose nodes have their types comes on a row of its columns to a value of its type,
/// or to a code.
pub fn values_have_their_types()
    ensures { (columns : List ColumnDef) (row : Row) (e : TypedExpr)
        → is_row_of columns row ≡ true → is_sound (around columns []) e ≡ true
        → IsOutcomeOf e.kind (value_in (at_row alone row) e) }
{}

/// What a statement of some tables writes over rows that stand in them stands in them too: each row
/// has its columns, is no larger than a row may be, and stands under its own key.
pub fn writes_are_stored()
    ensures { (tables : List TableDef) (checked : Checked) (view : View) (next : ℤ)
        (changes : List Change) → AreAllowed tables → is_of tables checked ≡ true
        → checked.kinds ≡ [] → AreAllStored tables view
        → given_by alone tables checked.body view next ≡ Ok (Writes changes)
        → All (IsChangeStored tables) changes }
{}

/// What a statement of some tables reads of rows that stand in them has the statement's columns.
pub fn reads_have_their_columns()
    ensures { (tables : List TableDef) (checked : Checked) (view : View) (next : ℤ)
        (read : ReadEffect) → is_of tables checked ≡ true → checked.kinds ≡ []
        → AreAllStored tables view
        → given_by alone tables checked.body view next ≡ Ok (Reads read)
        → list_all (has_columns checked.columns) read.rows ≡ true }
{}
