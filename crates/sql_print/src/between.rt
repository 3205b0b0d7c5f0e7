//! What stands between the parts of a list.
ghost use Rattle.std.specs.Prelude.{◌≡◌, OnOk};
ghost use Rattle.sql_print.specs.Between.{before_tokens, between_token};
ghost use Rattle.sql_print.specs.Writing.{after, put, state};

use crate::writer::Writer;
use pool_base::NoMemory;
use sql_tokens::{Mark, Word};

/// What stands between two parts.
#[derive(Clone, Copy)]
pub(crate) enum Between {
    /// OR.
    Or,
    /// AND.
    And,
    /// `||`
    Bars,
    /// `,`
    Comma,
}

impl Between {
    fn write(self, onto: &mut Writer) -> Result<(), NoMemory>
        ensures { OnOk result (state onto.new ≡ put (state onto.old) (between_token self)) }
    {
        match self {
            Between::Or => onto.word(Word::Or),
            Between::And => onto.word(Word::And),
            Between::Bars => onto.mark(Mark::Bars),
            Between::Comma => onto.mark(Mark::Comma),
        }
    }
}

/// What stands before an item: nothing before the first.
pub(crate) fn write_before(before: Option<Between>, onto: &mut Writer) -> Result<(), NoMemory>
    ensures { OnOk result (state onto.new ≡ after (state onto.old) (before_tokens before)) }
{
    match before {
        None => Ok(()),
        Some(between) => between.write(onto),
    }
}
