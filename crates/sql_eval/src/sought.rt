//! The key that a filter asks for: `key = constant`, alone or as the first part of AND.
ghost use Rattle.std.specs.Prelude.{◌≡◌, IfSome, true};
ghost use Rattle.sql_eval.specs.Views.{cell_at};
ghost use Rattle.sql_eval.specs.Seeking.{AreEqualAs, AreFalseBeside, ComesTo, Seeks, key_is};

use pg_values::Value;
use sql_tree::Comparison;
use sql_values::is_null;
use typed_sql::{TypedExpr, TypedForm};

/// Whether an expression is that column.
fn is_column(expr: &TypedExpr, column: u8) -> bool
    ensures { result ≡ true → ComesTo expr.now (cell_at column) }
{
    match &expr.form {
        TypedForm::Column(number) => *number == column,
        _ => false,
    }
}

/// The value of an expression that is a constant.
fn constant(expr: &TypedExpr) -> Option<&Value>
    ensures { IfSome result (λ v. ComesTo expr.now (λ row. v.now)) }
{
    match &expr.form {
        TypedForm::Literal(value) => Some(value),
        _ => None,
    }
}

/// The constant beside the key, on either side of it.
fn constant_beside<'a>(left: &'a TypedExpr, right: &'a TypedExpr, key: u8) -> Option<&'a Value>
    ensures { IfSome result (λ v. AreEqualAs left.now right.now (key_is key v.now)) }
{
    if is_column(left, key) {
        return constant(right);
    }
    if is_column(right, key) {
        return constant(left);
    }
    None
}

/// The constant of `key = constant`.
fn constant_equal(expr: &TypedExpr, key: u8) -> Option<&Value>
    ensures { IfSome result (λ v. ComesTo expr.now (key_is key v.now)) }
{
    match &expr.form {
        TypedForm::Compare(Comparison::Equal, left, right) => constant_beside(
            left.get(),
            right.get(),
            key,
        ),
        _ => None,
    }
}

/// The constant of `key = constant` in front of AND. Beside Null the parts behind it are asked.
fn constant_first(parts: &[TypedExpr], key: u8) -> Option<&Value>
    ensures { IfSome result (λ v. AreFalseBeside parts.now key v.now) }
{
    let [first, ..] = parts else {
        return None;
    };
    match constant_equal(first, key) {
        Some(value) if !is_null(value) => Some(value),
        _ => None,
    }
}

/// The constant that a filter asks the key for.
fn constant_of(filter: &TypedExpr, key: u8) -> Option<&Value>
    ensures { IfSome result (λ v. Seeks (Some filter.now) key v.now) }
{
    match &filter.form {
        TypedForm::And(parts) => constant_first(parts.as_slice(), key),
        _ => constant_equal(filter, key),
    }
}

/// The constant that a filter asks the key for, if there is one: at a row whose key misses it the
/// filter is not true, and has no code.
pub(crate) fn sought(filter: &Option<TypedExpr>, key: u8) -> Option<&Value>
    ensures { IfSome result (λ v. Seeks filter.now key v.now) }
{
    match filter {
        Some(filter) => constant_of(filter, key),
        None => None,
    }
}
