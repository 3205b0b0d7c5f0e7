//! What a backend answers.
ghost use Rattle.std.specs.Prelude.{◌≡◌};

use pool_base::{Code, List};
use sql_eval::Row;
use std::alloc::AllocError;

/// What a backend answers to a request.
#[derive(PartialEq, Eq, Drop)]
pub enum Answer {
    /// A transaction has begun.
    Began,
    /// The rows of a read.
    Rows(List<Row>),
    /// How many rows a write has changed.
    Count(u64),
    Locked,
    Done,
    Serial(i64),
    /// The transaction is dead, and nothing but a rollback ends it.
    Refused(Code),
}

impl Clone for Answer {
    ghost is_clone = { λ answer copy. copy ≡ answer };

    fn clone(&self) -> Result<Answer, AllocError> {
        Ok(match self {
            Answer::Began => Answer::Began,
            Answer::Rows(rows) => Answer::Rows(rows.clone()?),
            Answer::Count(count) => Answer::Count(*count),
            Answer::Locked => Answer::Locked,
            Answer::Done => Answer::Done,
            Answer::Serial(next) => Answer::Serial(*next),
            Answer::Refused(code) => Answer::Refused(*code),
        })
    }
}

/// What a look for the answer finds.
#[derive(PartialEq, Eq, Drop)]
pub enum Polled {
    Answered(Answer),
    /// The request waits.
    NotYet,
    /// The backend is lost, and will never answer.
    Lost,
    /// Memory was refused: ask again.
    NoMemory,
}
