//! Logic of three values.
ghost use Rattle.std.specs.Prelude.{◌≡◌, true};
ghost use Rattle.sql_values.specs.Logic.{opposite, opposite_if, is_truth, is_known, tested};

use crate::order::is_null;
use pg_values::Value;

/// Whether it is true, and neither false nor Null: a filter keeps such rows alone.
pub fn is_true(value: &Value) -> bool
    ensures { result ≡ is_truth true value.now }
{
    matches!(value, Value::Bool(true))
}

/// Whether it is this truth.
pub(crate) fn is_truth(truth: bool, value: &Value) -> bool
    ensures { result ≡ is_truth truth value.now }
{
    match value {
        Value::Bool(given) => { if truth { *given } else { !*given } }
        _ => false,
    }
}

/// Whether it is true or false.
pub(crate) fn is_known(value: &Value) -> bool
    ensures { result ≡ is_known value.now }
{
    matches!(value, Value::Bool(_))
}

/// NOT.
pub(crate) fn opposite(value: Value) -> Value
    ensures { result ≡ opposite value }
{
    match value {
        Value::Bool(truth) => Value::Bool(!truth),
        _ => Value::Null,
    }
}

pub(crate) fn opposite_if(negated: bool, value: Value) -> Value
    ensures { result ≡ opposite_if negated value }
{
    if negated { opposite(value) } else { value }
}

/// IS NULL, and IS NOT NULL for each entry that is true, one behind another.
pub(crate) fn tested(value: Value, tests: &[bool]) -> Value
    ensures { result ≡ tested value tests.now }
{
    let mut value = value;
    for negated in tests {
        let null = is_null(&value);
        value = Value::Bool(if *negated { !null } else { null });
    }
    value
}
