//! The form of what a statement answers.
ghost use Rattle.std.specs.Prelude.{◌≡◌};
ghost use Rattle.std.specs.List.{list_all};
ghost use Rattle.backend_trait.specs.Typed.{has_columns};
ghost use Rattle.backend_trait.specs.Runnable.{is_of_run};

use crate::answer::Answer;
use crate::rows::has_columns;
use catalogue::{Checked, CheckedBody, ColumnDesc};
use sql_eval::Row;

/// Whether rows are of these columns.
fn have_columns(columns: &[ColumnDesc], rows: &[Row]) -> bool
    ensures { result ≡ list_all (has_columns columns.now) rows.now }
{
    for row in rows {
        if !has_columns(columns, row) {
            return false;
        }
    }
    true
}

/// Whether a statement may answer so, by its form: a SELECT rows of its columns, another statement
/// a count, and each a refusal.
pub fn is_of_run(checked: &Checked, answer: &Answer) -> bool
    ensures { result ≡ is_of_run checked.now answer.now }
{
    match answer {
        Answer::Refused(_) => true,
        Answer::Rows(rows) => match &checked.body {
            CheckedBody::Read(_) => have_columns(checked.columns.as_slice(), rows.as_slice()),
            CheckedBody::Insert(_) | CheckedBody::Change(_) | CheckedBody::Remove(_) => false,
        },
        Answer::Count(_) => match &checked.body {
            CheckedBody::Read(_) => false,
            CheckedBody::Insert(_) | CheckedBody::Change(_) | CheckedBody::Remove(_) => true,
        },
        Answer::Began | Answer::Locked | Answer::Done | Answer::Serial(_) => false,
    }
}
