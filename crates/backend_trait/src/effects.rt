//! What holds of the effects of all statements.
ghost use Rattle.std.specs.Prelude.{◌≡◌, ℤ, List, All, Some, Ok};
ghost use Rattle.schema.specs.declared.catalogue.TableDef.{TableDef};
ghost use Rattle.catalogue.specs.declared.checked.CheckedBody.{CheckedBody};
ghost use Rattle.sql_values.specs.Meaning.{Around};
ghost use Rattle.sql_eval.specs.declared.effect.Change.{Change};
ghost use Rattle.sql_eval.specs.Views.{View};
ghost use Rattle.sql_eval.specs.Effects.{Writes, effect_of, given_by, table_in};
ghost use Rattle.backend_trait.specs.Apart.{apart};

/// A write changes its own table alone.
pub fn writes_stay_in_their_table()
    ensures { (around : Around) (tables : List TableDef) (body : CheckedBody) (view : View)
        (next : ℤ) (changes : List Change)
        → given_by around tables body view next ≡ Ok (Writes changes)
        → All (λ c. Some c.table ≡ table_in body) changes }
{}

/// The effect of a statement hangs on the rows of its own table alone.
pub fn effects_see_their_table()
    ensures { (around : Around) (tables : List TableDef) (body : CheckedBody) (view : View)
        (next : ℤ) → effect_of around tables body view next
        ≡ effect_of around tables body (apart view (table_in body)) next }
{}
