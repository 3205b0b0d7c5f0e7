//! The words for types and values.
use case_lines::Told;
use pg_values::{ColType, Value};

/// The word of a type: the shorter one where PostgreSQL has two.
pub(crate) fn word_of(kind: ColType) -> &'static str {
    match kind {
        ColType::Bool => "bool",
        ColType::Int4 => "int4",
        ColType::Int8 => "int8",
        ColType::Text => "text",
        ColType::Moment => "timestamptz",
    }
}

/// A number, a text in quotes, or a word; a moment by that word alone.
pub(crate) fn put_value(value: &Value, told: &mut Told) {
    match value {
        Value::Null => told.put("null"),
        Value::Bool(true) => told.put("true"),
        Value::Bool(false) => told.put("false"),
        Value::Int4(number) => told.put_signed(i64::from(*number)),
        Value::Int8(number) => told.put_signed(*number),
        Value::Text(text) => {
            told.put("'");
            told.put_one_line(text.as_str());
            told.put("'");
        }
        Value::Moment(_) => told.put("moment"),
    }
}
