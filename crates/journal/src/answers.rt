//! Rows, what backends answer, and why a backend is detached.
ghost use Rattle.std.specs.Prelude.{◌≡◌, ◌++◌, OnOk, string_bytes};
ghost use Rattle.pgproto.specs.Spelling.{each_spelled};
ghost use Rattle.journal.specs.Answers.{spelled_answer, spelled_cause, spelled_row, spelled_rows, spelled_value};

use crate::pieces::{push_coded, push_counted, push_number, push_quoted, push_typed, push_word};
use backend_trait::{Answer, Row};
use pg_values::Value;
use pool_base::NoMemory;
use session_machine::Cause;

fn push_value(value: &Value, onto: &mut String) -> Result<(), NoMemory>
    ensures { OnOk result (string_bytes onto.new
        ≡ string_bytes onto.old ++ spelled_value value.now) }
{
    match value {
        Value::Null => push_word("null", onto),
        Value::Bool(true) => push_word("bool:t", onto),
        Value::Bool(false) => push_word("bool:f", onto),
        Value::Int4(number) => push_typed("int4:", i64::from(*number), onto),
        Value::Int8(number) => push_typed("int8:", *number, onto),
        Value::Text(text) => {
            push_word("text:", onto)?;
            push_quoted(text.as_bytes(), onto)
        }
        Value::Moment(micros) => push_typed("moment:", *micros, onto),
    }
}

/// Values, each behind a space.
fn push_values(values: &[Value], onto: &mut String) -> Result<(), NoMemory>
    ensures { OnOk result (string_bytes onto.new
        ≡ string_bytes onto.old ++ each_spelled spelled_value values.now) }
{
    for value in values {
        push_word(" ", onto)?;
        push_value(value, onto)?;
    }
    Ok(())
}

/// A row: how many values it has, and each.
fn push_row(row: &Row, onto: &mut String) -> Result<(), NoMemory>
    ensures { OnOk result (string_bytes onto.new ≡ string_bytes onto.old ++ spelled_row row.now) }
{
    push_number(row.cells.len() as u64, onto)?;
    push_values(row.cells.as_slice(), onto)
}

/// Rows, each behind a space.
fn push_each_row(rows: &[Row], onto: &mut String) -> Result<(), NoMemory>
    ensures { OnOk result (string_bytes onto.new
        ≡ string_bytes onto.old ++ each_spelled spelled_row rows.now) }
{
    for row in rows {
        push_word(" ", onto)?;
        push_row(row, onto)?;
    }
    Ok(())
}

/// Rows: how many, and each.
pub(crate) fn push_rows(rows: &[Row], onto: &mut String) -> Result<(), NoMemory>
    ensures { OnOk result (string_bytes onto.new
        ≡ string_bytes onto.old ++ spelled_rows rows.now) }
{
    push_counted("rows ", rows.len() as u64, onto)?;
    push_each_row(rows, onto)
}

pub(crate) fn push_answer(answer: &Answer, onto: &mut String) -> Result<(), NoMemory>
    ensures { OnOk result (string_bytes onto.new
        ≡ string_bytes onto.old ++ spelled_answer answer.now) }
{
    match answer {
        Answer::Began => push_word("began", onto),
        Answer::Rows(rows) => push_rows(rows.as_slice(), onto),
        Answer::Count(count) => push_counted("count ", *count, onto),
        Answer::Locked => push_word("locked", onto),
        Answer::Done => push_word("done", onto),
        Answer::Serial(next) => push_typed("serial ", *next, onto),
        Answer::Refused(code) => push_coded("refused ", *code, onto),
    }
}

/// Why a backend is detached.
pub(crate) fn push_cause(cause: &Cause, onto: &mut String) -> Result<(), NoMemory>
    ensures { OnOk result (string_bytes onto.new
        ≡ string_bytes onto.old ++ spelled_cause cause.now) }
{
    match cause {
        Cause::Fault { before, after } => {
            push_counted("fault ", *before, onto)?;
            push_counted(" ", *after, onto)
        }
        Cause::Differs { kept, own } => {
            push_word("differs ", onto)?;
            push_answer(kept, onto)?;
            push_word(" / ", onto)?;
            push_answer(own, onto)
        }
    }
}
