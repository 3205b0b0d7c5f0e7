//! What a server answers to a question.
ghost use Rattle.std.specs.Prelude.{◌≡◌, option_copied};
ghost use Rattle.server_check.specs.Servers.{are_same, is_same_at};

use pool_base::{Code, Text};
use std::{fmt, str};

/// What a server answers to a question.
#[derive(PartialEq, Eq, Drop)]
pub enum Answer {
    /// One text.
    Told(Text),
    /// No row, or null.
    Nothing,
    /// It refuses the question with this code.
    Refused(Code),
}

/// Whether two lists of answers are the same.
pub(crate) fn are_same(left: &[Answer], right: &[Answer]) -> bool
    ensures { result ≡ are_same left.now right.now }
{
    match left {
        [] => match right {
            [] => true,
            [_, ..] => false,
        },
        [one, left @ ..] => match right {
            [] => false,
            [other, right @ ..] => *one == *other && are_same(left, right),
        },
    }
}

/// Whether both have answered, the same.
pub(crate) fn is_same_at(kept: Option<&Answer>, told: Option<&Answer>) -> bool
    ensures { result ≡ is_same_at (option_copied kept.entry) (option_copied told.entry) }
{
    match (kept, told) {
        (Some(kept), Some(told)) => *told == *kept,
        (None, _) | (_, None) => false,
    }
}

impl fmt::Display for Answer {
    fn fmt<W: fmt::Write>(&self, f: &mut fmt::Formatter<W>) -> fmt::Result {
        match self {
            Answer::Told(text) => f.write_str(text.as_str()),
            Answer::Nothing => f.write_str("nothing"),
            Answer::Refused(code) => match str::from_utf8(&code.bytes) {
                Ok(code) => write!(f, "the refusal {code}"),
                Err(_) => f.write_str("a refusal"),
            },
        }
    }
}
