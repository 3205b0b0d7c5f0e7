//! What a store tells, in words.
use backend_trait::{Answer, Polled, Row};
use case_lines::Told;
use pg_values::Value;

fn put_value(value: &Value, told: &mut Told) {
    match value {
        Value::Int4(number) => told.put_signed(i64::from(*number)),
        Value::Int8(number) => told.put_signed(*number),
        Value::Null | Value::Bool(_) | Value::Text(_) | Value::Moment(_) => told.put("?"),
    }
}

fn put_row(row: &Row, told: &mut Told) {
    told.put("row");
    for value in row.cells.as_slice() {
        told.put(" ");
        put_value(value, told);
    }
}

fn put_rows(rows: &[Row], told: &mut Told) {
    if rows.is_empty() {
        told.put("no row");
    }
    for row in rows {
        put_row(row, told);
    }
}

fn put_answer(answer: &Answer, told: &mut Told) {
    match answer {
        Answer::Began => told.put("began"),
        Answer::Rows(rows) => put_rows(rows.as_slice(), told),
        Answer::Count(count) => {
            told.put("count ");
            told.put_number(*count);
        }
        Answer::Locked => told.put("locked"),
        Answer::Serial(next) => {
            told.put("next ");
            told.put_signed(*next);
        }
        Answer::Done => told.put("done"),
        Answer::Refused(code) => told.put_escaped(&code.bytes),
    }
}

/// Puts what is told at a poll.
pub(crate) fn put_polled(polled: &Polled, told: &mut Told) {
    match polled {
        Polled::Answered(answer) => put_answer(answer, told),
        Polled::NotYet => told.put("waits"),
        Polled::Lost => told.put("lost"),
        Polled::NoMemory => told.put("no memory"),
    }
}
