//! Values that a table gives.
use case_lines::Told;
use catalogue::TableDef;
use pg_values::{ColType, Value, from_text};
use pool_base::{List, Text};
use sql_eval::Row;
use std::alloc::Global;

/// A value by its text, or Null for `-`, and where the text is none of the type.
fn value_of(alloc: Global, kind: ColType, text: &str) -> Value {
    if text == "-" {
        return Value::Null;
    }
    from_text(alloc, kind, text.as_bytes()).unwrap_or(Value::Null)
}

/// A row of a table by its words, one a column.
pub(crate) fn row_of(alloc: Global, table: &TableDef, line: &str) -> Row {
    let mut cells = List::new(alloc);
    let mut words = line.split(' ');
    for column in table.columns.as_slice() {
        let word = words.next().unwrap_or("-");
        let _ = cells.push(value_of(alloc, column.kind, word));
    }
    Row { cells }
}

/// A text in quotes, as it stands there.
fn quoted_of(alloc: Global, text: &str) -> Value {
    match Text::from_str(alloc, text.trim_matches('"')) {
        Ok(text) => Value::Text(text),
        Err(_) => Value::Null,
    }
}

/// A value by the word of its type and its text; a moment by its microseconds.
fn typed_of(alloc: Global, word: &str, text: &str) -> Value {
    match word {
        "bool" => value_of(alloc, ColType::Bool, text),
        "int4" => value_of(alloc, ColType::Int4, text),
        "int8" => value_of(alloc, ColType::Int8, text),
        "moment" => Value::Moment(text.parse::<i64>().unwrap_or(0)),
        "text" => quoted_of(alloc, text),
        _ => Value::Null,
    }
}

/// Values, each `TYPE:TEXT` or `null`, with spaces between them.
pub(crate) fn values_of(alloc: Global, words: &str, told: &mut Told) -> List<Value> {
    let mut values = List::new(alloc);
    for word in words.split_whitespace() {
        let (kind, text) = word.split_once(':').unwrap_or((word, ""));
        if values.push(typed_of(alloc, kind, text)).is_err() {
            told.put("no memory");
        }
    }
    values
}
