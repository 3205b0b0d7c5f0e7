//! How values stand to one another, and texts behind one another.
ghost use Rattle.std.specs.Prelude.{◌≡◌, ◌++◌};
ghost use Rattle.sql_values.specs.Outcome.{Gives};
ghost use Rattle.sql_values.specs.Order.{is_null, number_in, text_in, standing, is_so, compared, as_text, joined};

use crate::fault::{ExprFault, TOO_LARGE};
use pg_values::Value;
use pool_base::Text;
use sql_tree::Comparison;
use std::cmp::Ordering;

/// The most bytes of a text that `||` makes.
const MOST_BYTES: usize = 1_000_000;

pub fn is_null(value: &Value) -> bool
    ensures { result ≡ is_null value.now }
{
    matches!(value, Value::Null)
}

/// A value by its number.
fn number_in(value: &Value) -> i64
    ensures { result ≡ number_in value.now }
{
    match value {
        Value::Bool(truth) => { if *truth { 1 } else { 0 } }
        Value::Int4(number) => *number as i64,
        Value::Int8(number) => *number,
        Value::Moment(micros) => *micros,
        Value::Null | Value::Text(_) => 0,
    }
}

fn text_in(value: &Value) -> &[u8]
    ensures { result.now ≡ text_in value.now }
{
    match value {
        Value::Text(text) => text.as_bytes(),
        _ => &[],
    }
}

/// How two values of one type stand: false before true, texts by their bytes, an int4 and an int8
/// by their numbers.
pub fn standing(a: &Value, b: &Value) -> Ordering
    ensures { result ≡ standing a.now b.now }
{
    match number_in(a).cmp(&number_in(b)) {
        Ordering::Less => Ordering::Less,
        Ordering::Equal => text_in(a).cmp(text_in(b)),
        Ordering::Greater => Ordering::Greater,
    }
}

fn is_so(how: Comparison, stand: Ordering) -> bool
    ensures { result ≡ is_so how stand }
{
    match how {
        Comparison::Equal => stand.is_eq(),
        Comparison::Unequal => stand.is_ne(),
        Comparison::Less => stand.is_lt(),
        Comparison::AtMost => stand.is_le(),
        Comparison::Greater => stand.is_gt(),
        Comparison::AtLeast => stand.is_ge(),
    }
}

/// A comparison of two values of one type: Null where one is Null.
///
/// Source: PostgreSQL 15, "Comparison Functions and Operators".
pub fn compared(how: Comparison, a: &Value, b: &Value) -> Value
    ensures { result ≡ compared how a.now b.now }
{
    if is_null(a) || is_null(b) {
        return Value::Null;
    }
    Value::Bool(is_so(how, standing(a, b)))
}

/// A text and another behind it.
fn behind(front: Text, back: &Text) -> Result<Value, ExprFault>
    ensures { Gives result (as_text (front ++ back.now)) }
{
    if front.len() > MOST_BYTES || back.len() > MOST_BYTES - front.len() {
        return Err(ExprFault::Refused(TOO_LARGE));
    }
    let mut text = front.into_string();
    text.push_str(back.as_str())?;
    Ok(Value::Text(Text::from_string(text)))
}

/// A value of `||`.
pub(crate) fn joined(front: Value, back: &Value) -> Result<Value, ExprFault>
    ensures { Gives result (joined front back.now) }
{
    match (front, back) {
        (Value::Text(front), Value::Text(back)) => behind(front, back),
        _ => Ok(Value::Null),
    }
}
