//! What holds of all that runnable statements give over rows that stand in their tables.
ghost use Rattle.std.specs.Prelude.{◌≡◌, ℤ, List, Option, true};
ghost use Rattle.schema.specs.declared.catalogue.TableDef.{TableDef};
ghost use Rattle.schema.specs.Allowed.{AreAllowed};
ghost use Rattle.catalogue.specs.declared.checked.Checked.{Checked};
ghost use Rattle.backend_trait.specs.Typed.{AreAllStored};
ghost use Rattle.backend_trait.specs.declared.answer.Answer.{Answer};
ghost use Rattle.backend_trait.specs.Keys.{Place};
ghost use Rattle.backend_trait.specs.Rows.{Rows, Changes, laid_over};
ghost use Rattle.backend_trait.specs.Effect.{Gives, effect_of};
ghost use Rattle.backend_trait.specs.Runnable.{IsRunnable, is_of_run};

/// What a runnable statement answers over rows that stand in their tables has the form of the
/// statement: a SELECT rows of its columns, another statement a count.
pub fn answers_have_their_form()
    ensures { (tables : List TableDef) (checked : Checked) (view : Rows) (next : Option ℤ)
        (answer : Answer) (changes : Changes) (places : List Place)
        → IsRunnable tables checked → AreAllStored tables view
        → (effect_of tables checked view next).given ≡ Gives answer changes places
        → is_of_run checked answer ≡ true }
{}

/// What a runnable statement changes over rows that stand in tables that a schema can have leaves
/// rows that stand in them.
pub fn rows_stay_in_their_tables()
    ensures { (tables : List TableDef) (checked : Checked) (view : Rows) (next : Option ℤ)
        (answer : Answer) (changes : Changes) (places : List Place)
        → AreAllowed tables → IsRunnable tables checked → AreAllStored tables view
        → (effect_of tables checked view next).given ≡ Gives answer changes places
        → AreAllStored tables (laid_over changes view) }
{}
