//! Values and rows as they are told.
use case_lines::Told;
use pg_values::Value;
use pool_base::Code;
use sql_eval::{Change, EvalFault, ReadEffect, Row, WriteEffect};

/// How long a text may be that is shown.
const MOST_SHOWN: usize = 8;

fn put_text(text: &str, told: &mut Told) {
    if text.len() > MOST_SHOWN {
        told.put_shown(&text.len());
        told.put(" bytes");
    } else {
        told.put(text);
    }
}

fn put_value(value: &Value, told: &mut Told) {
    match value {
        Value::Null => told.put("-"),
        Value::Bool(truth) => told.put(if *truth { "t" } else { "f" }),
        Value::Int4(number) => told.put_signed(i64::from(*number)),
        Value::Int8(number) => told.put_signed(*number),
        Value::Text(text) => put_text(text.as_str(), told),
        Value::Moment(micros) => told.put_signed(*micros),
    }
}

/// The values, a space before each.
fn put_values(values: &[Value], told: &mut Told) {
    for value in values {
        told.put_gap();
        put_value(value, told);
    }
}

fn put_rows(rows: &[Row], told: &mut Told) {
    for row in rows {
        put_values(row.cells.as_slice(), told);
        told.put(";");
    }
}

/// Of a SELECT each row, and behind a bar the keys that are locked.
pub(crate) fn put_read(effect: &ReadEffect, told: &mut Told) {
    put_rows(effect.rows.as_slice(), told);
    if !effect.keys.is_empty() {
        told.put("|");
    }
    put_values(effect.keys.as_slice(), told);
}

fn put_change(change: &Change, told: &mut Told) {
    told.put_gap();
    put_value(&change.key, told);
    told.put(":");
    match &change.row {
        Some(row) => put_values(row.cells.as_slice(), told),
        None => told.put(" gone"),
    }
    told.put(";");
}

/// Of a write how many numbers are drawn, and each key with the row that is left there.
pub(crate) fn put_write(effect: &WriteEffect, told: &mut Told) {
    told.put_shown(&effect.draws);
    for change in effect.changes.as_slice() {
        put_change(change, told);
    }
}

pub(crate) fn put_code(code: &Code, told: &mut Told) {
    told.put_escaped(code.bytes.as_slice());
}

/// Of a fault its code, behind the count of numbers that a write has drawn.
pub(crate) fn put_fault(fault: &EvalFault, is_write: bool, told: &mut Told) {
    match fault {
        EvalFault::Refused { code, draws } => {
            if is_write {
                told.put_shown(draws);
                told.put(" ");
            }
            put_code(code, told);
        }
        EvalFault::NoMemory => told.put("no memory"),
    }
}
