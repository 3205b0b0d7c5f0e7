//! Constants behind DEFAULT as values of the column's type.
ghost use Rattle.std.specs.Prelude.{◌≡◌, ℤ, IfOk, Option as Maybe, pos, neg_ℤ};
ghost use Rattle.pg_values.specs.declared.value.Value.{Value};
ghost use Rattle.schema.specs.Steps.{negated_at, ReadAs};
ghost use Rattle.schema.specs.Values.{number_value, truth_value, StringValue, IsTextForm, is_number, is_moment};

use crate::column_type::kind_of;
use crate::open::{Due, Place};
use pg_values::{ColType, Value, ValueFault, from_text};
use pool_base::NoMemory;
use sql_tokens::Token;
use std::alloc::Global;

/// A whole number as a value of the type.
pub(crate) fn number_value(kind: ColType, number: i64) -> Option<Value>
    ensures { result ≡ number_value kind number }
{
    match kind {
        ColType::Int4 => {
            if number < -2_147_483_648 || number > 2_147_483_647 {
                return None;
            }
            Some(Value::Int4(number as i32))
        }
        ColType::Int8 => Some(Value::Int8(number)),
        ColType::Bool | ColType::Text | ColType::Moment => None,
    }
}

/// What stands behind a minus as a value of the type, with the minus.
pub(crate) fn negated(kind: ColType, token: &Token) -> Option<Value>
    ensures { result ≡ negated_at kind token.now }
{
    match token {
        Token::Number(number) => match number.checked_neg() {
            Some(number) => number_value(kind, number),
            None => None,
        },
        Token::Least => number_value(kind, i64::MIN),
        _ => None,
    }
}

/// TRUE or FALSE as a value of the type.
pub(crate) fn truth_value(kind: ColType, truth: bool) -> Option<Value>
    ensures { result ≡ truth_value kind truth }
{
    match kind {
        ColType::Bool => Some(Value::Bool(truth)),
        ColType::Int4 | ColType::Int8 | ColType::Text | ColType::Moment => None,
    }
}

pub(crate) fn is_number(kind: ColType) -> bool
    ensures { result ≡ is_number kind }
{
    matches!(kind, ColType::Int4 | ColType::Int8)
}

pub(crate) fn is_moment(kind: ColType) -> bool
    ensures { result ≡ is_moment kind }
{
    matches!(kind, ColType::Moment)
}

/// The value whose text form it is, if it is one.
fn text_form(alloc: Global, kind: ColType, text: &[u8]) -> Result<Option<Value>, NoMemory>
    ensures found { IfOk result (λ value. IsTextForm kind text.now value) }
    ensures only { (value : Maybe Value) → IsTextForm kind text.now value
        → IfOk result (λ read. read ≡ value) }
{
    match from_text(alloc, kind, text) {
        Ok(value) => Ok(Some(value)),
        Err(ValueFault::Bad(_)) => Ok(None),
        Err(ValueFault::NoMemory) => Err(NoMemory),
    }
}

/// What a string is read as.
fn string_value(alloc: Global, kind: ColType, text: &str) -> Result<Option<Value>, NoMemory>
    ensures found { IfOk result (λ value. StringValue kind text.now value) }
    ensures only { (value : Maybe Value) → StringValue kind text.now value
        → IfOk result (λ read. read ≡ value) }
{
    match kind {
        ColType::Text => Ok(Some(Value::Text(pool_base::Text::from_str(alloc, text)?))),
        ColType::Bool | ColType::Int4 | ColType::Int8 | ColType::Moment => {
            text_form(alloc, kind, text.as_bytes())
        }
    }
}

/// What a string behind DEFAULT is read as.
pub(crate) fn read_string(
    alloc: Global,
    place: &Place,
    token: &Token,
) -> Result<Option<Value>, NoMemory>
    ensures found { IfOk result (λ value. ReadAs place.now token.now value) }
    ensures only { (value : Maybe Value) → ReadAs place.now token.now value
        → IfOk result (λ read. read ≡ value) }
{
    match (place, token) {
        (
            Place::Column {
                column,
                due: Due::Value,
                ..
            },
            Token::Str(text),
        ) => string_value(alloc, kind_of(column.kind), text.as_str()),
        _ => Ok(None),
    }
}
