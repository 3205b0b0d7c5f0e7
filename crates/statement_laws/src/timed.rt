//! What holds of the effects of all statements at a moment.
ghost use Rattle.std.specs.Prelude.{◌≡◌, ℤ, List};
ghost use Rattle.schema.specs.declared.catalogue.TableDef.{TableDef};
ghost use Rattle.catalogue.specs.declared.checked.CheckedBody.{CheckedBody};
ghost use Rattle.sql_values.specs.Meaning.{Around};
ghost use Rattle.sql_eval.specs.Views.{View};
ghost use Rattle.sql_eval.specs.Effects.{effect_of};
ghost use Rattle.time_rewrite.specs.Rewriting.{body_at};

use time_rewrite::value_at_moment;

/// Whatever moment stands round it, a statement at a moment draws and gives what the statement
/// draws and gives at that moment, or has its code.
pub fn effects_at_moment()
    ensures { (around : Around) (moment : ℤ) (tables : List TableDef) (body : CheckedBody)
        (view : View) (next : ℤ) → effect_of around tables (body_at moment body) view next
        ≡ effect_of (record around { moment = moment }) tables body view next }
{
    value_at_moment();
}
