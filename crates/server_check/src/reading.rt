//! How a server's reply is read as its answer.
ghost use Rattle.std.specs.Prelude.{◌≡◌, IfOk};
ghost use Rattle.server_check.specs.Readings.{answer_of, answer_by, cell_answer, row_answer};

use crate::answer::Answer;
use pg_values::Value;
use pool_base::{NoMemory, Text};
use postgres_link::Reply;
use sql_eval::Row;
use std::alloc::Global;

/// The answer that a cell is.
fn cell_answer(cell: &Value) -> Result<Option<Answer>, NoMemory>
    ensures { IfOk result (λ answer. answer ≡ cell_answer cell.now) }
{
    match cell {
        Value::Text(text) => Ok(Some(Answer::Told(text.clone()?))),
        Value::Null => Ok(Some(Answer::Nothing)),
        Value::Bool(_) | Value::Int4(_) | Value::Int8(_) | Value::Moment(_) => Ok(None),
    }
}

/// The answer that a row of these cells is.
fn row_answer(cells: &[Value]) -> Result<Option<Answer>, NoMemory>
    ensures { IfOk result (λ answer. answer ≡ row_answer cells.now) }
{
    match cells {
        [] => Ok(None),
        [cell] => cell_answer(cell),
        [_, _, ..] => Ok(None),
    }
}

/// The answer that these rows are.
fn rows_answer(rows: &[Row]) -> Result<Option<Answer>, NoMemory>
    ensures { IfOk result (λ answer. answer ≡ answer_by rows.now) }
{
    match rows {
        [] => Ok(Some(Answer::Nothing)),
        [row] => row_answer(row.cells.as_slice()),
        [_, _, ..] => Ok(None),
    }
}

/// The answer that a reply is. `Ok(None)`: it is none.
pub fn answer_of(alloc: Global, reply: &Reply) -> Result<Option<Answer>, NoMemory>
    ensures { IfOk result (λ answer. answer ≡ answer_of reply.now) }
{
    match reply {
        Reply::Refused(code) => Ok(Some(Answer::Refused(*code))),
        Reply::Rows(rows) => rows_answer(rows.as_slice()),
        Reply::Done => Ok(Some(Answer::Told(Text::from_str(alloc, "done")?))),
        Reply::Count(_) => Ok(None),
    }
}
