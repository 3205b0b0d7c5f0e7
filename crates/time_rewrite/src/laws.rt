//! What holds of all expressions at a moment.
ghost use Rattle.std.specs.Prelude.{◌≡◌, ℤ};
ghost use Rattle.typed_sql.specs.declared.typed.TypedExpr.{TypedExpr};
ghost use Rattle.sql_values.specs.Meaning.{Around, value_in};
ghost use Rattle.time_rewrite.specs.Rewriting.{expr_at};

/// Whatever moment stands round it, an expression at a moment comes on a row to the value or the
/// code that the expression comes to there at that moment.
pub fn value_at_moment()
    ensures { (around : Around) (moment : ℤ) (e : TypedExpr)
        → value_in around (expr_at moment e) ≡ value_in (record around { moment = moment }) e }
{}
