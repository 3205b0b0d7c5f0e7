//! What becomes of the order of a session that is to reply.

use backend_trait::{Answer, Row};
use pool_base::{Code, List, NoMemory, Text};
use session_engine::{Due, Standing};
use session_machine::Heard;
use session_orders::{Outcome, Tag};

fn rows_copied(rows: &List<Row>, tag: Tag) -> Result<Outcome, NoMemory> {
    Ok(Outcome::Rows {
        rows: rows.clone()?,
        tag,
    })
}

fn error_copied(code: Code, name: &Text) -> Result<Outcome, NoMemory> {
    Ok(Outcome::Error {
        code,
        name: name.clone()?,
    })
}

fn copied(outcome: &Outcome) -> Result<Outcome, NoMemory> {
    match outcome {
        Outcome::Rows { rows, tag } => rows_copied(rows, *tag),
        Outcome::Done { tag, warning } => Ok(Outcome::Done {
            tag: *tag,
            warning: *warning,
        }),
        Outcome::Settled => Ok(Outcome::Settled),
        Outcome::Nodes(attached) => Ok(Outcome::Nodes(*attached)),
        Outcome::Error { code, name } => error_copied(*code, name),
    }
}

/// The rows of an answer, as a reply.
fn rows_of(answer: &Answer) -> Result<Option<Outcome>, NoMemory> {
    match answer {
        Answer::Rows(rows) => Ok(Some(rows_copied(rows, Tag::Select(rows.len() as u64))?)),
        Answer::Began
        | Answer::Count(_)
        | Answer::Locked
        | Answer::Done
        | Answer::Serial(_)
        | Answer::Refused(_) => Ok(None),
    }
}

/// The rows of the answer at that place, as a reply.
fn rows_at(heard: &[Heard], place: usize) -> Result<Option<Outcome>, NoMemory> {
    match heard.get(place) {
        Some(heard) => rows_of(&heard.answer),
        None => Ok(None),
    }
}

fn some_copied(outcome: &Outcome) -> Result<Option<Outcome>, NoMemory> {
    Ok(Some(copied(outcome)?))
}

/// What becomes of the order of a session that is to reply.
pub(crate) fn outcome_due(standing: &Standing) -> Result<Option<Outcome>, NoMemory> {
    match &standing.due {
        Due::ReplyDue(outcome) => some_copied(outcome),
        Due::RowsDue(best) => rows_at(standing.answers.as_slice(), *best),
        Due::Resting
        | Due::EnterDue(_)
        | Due::LookDue(_)
        | Due::PostDue(_, _)
        | Due::Waiting(_, _)
        | Due::LostDue(_, _, _, _)
        | Due::SplitDue { .. }
        | Due::ChooseDue(_)
        | Due::ShowDue
        | Due::LeaveSnapshotDue(_)
        | Due::UnwindDue(_)
        | Due::EnterCommitDue
        | Due::LeaveCommitDue(_)
        | Due::FinishDue(_)
        | Due::EndDue => Ok(None),
    }
}
