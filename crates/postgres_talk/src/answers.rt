//! From a reply to the answer to a request.
ghost use Rattle.std.specs.Prelude.{◌≡◌, ◌≤ℤ◌, ◌⊎◌, ℤ, pos, IfSome};
ghost use Rattle.pool_base.specs.declared.code.Code.{Code};
ghost use Rattle.backend_trait.specs.Acts.{IsOf};
ghost use Rattle.postgres_talk.specs.Forms.{AnswersRows, AnswersRun};

use crate::size::are_small;
use backend_trait::{Answer, Request, Row, is_of_run};
use catalogue::Checked;
use pg_values::Value;
use pool_base::List;
use postgres_link::{PROGRAM_LIMIT_EXCEEDED, Reply};

/// The answer that a reply is to the taking of a snapshot: the rows of `SELECT 1`.
fn snapshot_answer(reply: Reply) -> Option<Answer>
    ensures { IfSome result (λ answer. IsOf Request.TakeSnapshot answer) }
{
    match reply {
        Reply::Rows(rows) => {
            drop(rows);
            Some(Answer::Began)
        }
        Reply::Refused(code) => Some(Answer::Refused(code)),
        Reply::Done | Reply::Count(_) => None,
    }
}

/// The answer that rows are. A row that is larger than a row may be is refused.
fn rows_answer(rows: List<Row>) -> Answer
    ensures { AnswersRows rows result }
{
    if are_small(rows.as_slice()) {
        return Answer::Rows(rows);
    }
    drop(rows);
    Answer::Refused(PROGRAM_LIMIT_EXCEEDED)
}

/// The answer that a reply is to a statement.
fn run_answer(checked: &Checked, reply: Reply) -> Option<Answer>
    ensures form { IfSome result (λ answer. IsOf (Request.Run checked.now) answer) }
    ensures told { IfSome result (λ answer. AnswersRun reply answer) }
{
    let answer = match reply {
        Reply::Rows(rows) => rows_answer(rows),
        Reply::Count(count) => Answer::Count(count),
        Reply::Refused(code) => Answer::Refused(code),
        Reply::Done => return None,
    };
    if is_of_run(checked, &answer) {
        return Some(answer);
    }
    drop(answer);
    None
}

/// The answer that a reply is to the lock of a table.
fn lock_answer(reply: Reply) -> Option<Answer>
    ensures { IfSome result (λ answer. (answer ≡ Answer.Locked)
        ⊎ ((code : Code) × (answer ≡ Answer.Refused code))) }
{
    match reply {
        Reply::Done => Some(Answer::Locked),
        Reply::Refused(code) => Some(Answer::Refused(code)),
        Reply::Rows(rows) => {
            drop(rows);
            None
        }
        Reply::Count(_) => None,
    }
}

/// The answer that a reply is to a commit or a rollback.
fn end_answer(reply: Reply) -> Option<Answer>
    ensures { IfSome result (λ answer. answer ≡ Answer.Done) }
{
    match reply {
        Reply::Done => Some(Answer::Done),
        Reply::Rows(rows) => {
            drop(rows);
            None
        }
        Reply::Count(_) | Reply::Refused(_) => None,
    }
}

/// The next number, of the row of a sequence: its last number, and whether it was given out.
fn next_serial(rows: &[Row]) -> Option<i64>
    ensures { IfSome result (λ next. pos 1 ≤ℤ next) }
{
    let [row] = rows else {
        return None;
    };
    match row.cells.as_slice() {
        [Value::Int8(last), Value::Bool(false)] if *last >= 1 => Some(*last),
        [Value::Int8(last), Value::Bool(true)] if *last >= 1 => last.checked_add(1),
        _ => None,
    }
}

/// The answer that a reply is to the reading of a serial number.
fn serial_answer(reply: Reply) -> Option<Answer>
    ensures { IfSome result (λ answer. (next : ℤ) × (pos 1 ≤ℤ next)
        × (answer ≡ Answer.Serial next)) }
{
    match reply {
        Reply::Rows(rows) => {
            let next = next_serial(rows.as_slice());
            drop(rows);
            match next {
                Some(next) => Some(Answer::Serial(next)),
                None => None,
            }
        }
        Reply::Done | Reply::Count(_) | Reply::Refused(_) => None,
    }
}

/// The answer that a reply is to the setting of a serial number.
fn set_answer(reply: Reply) -> Option<Answer>
    ensures { IfSome result (λ answer. answer ≡ Answer.Done) }
{
    match reply {
        Reply::Rows(rows) => {
            drop(rows);
            Some(Answer::Done)
        }
        Reply::Done | Reply::Count(_) | Reply::Refused(_) => None,
    }
}

/// The answer that the reply to a request is, if it has the form of one.
pub fn answer_of(request: &Request, reply: Reply) -> Option<Answer>
    ensures form { IfSome result (λ answer. IsOf request.now answer) }
    // To a statement it is what the reply says, or a refusal, since a row is too large.
    ensures run { IfSome result (λ answer. (checked : Checked) → request.now ≡ Request.Run checked
        → AnswersRun reply answer) }
{
    match request {
        Request::TakeSnapshot => snapshot_answer(reply),
        Request::Run(checked) => run_answer(checked, reply),
        Request::Lock(_) => lock_answer(reply),
        Request::Commit | Request::Rollback => end_answer(reply),
        Request::ReadSerial(_) => serial_answer(reply),
        Request::SetSerial(_, _) => set_answer(reply),
    }
}
