//! What becomes of orders.
ghost use Rattle.std.specs.Prelude.{◌≡◌, ◌++◌, ◌∷◌, OnOk, codes, string_bytes};
ghost use Rattle.std.specs.Fmt.{decimal};
ghost use Rattle.pool_base.specs.Sets.{size};
ghost use Rattle.journal.specs.Parts.{spelled_set};
ghost use Rattle.journal.specs.Answers.{spelled_rows};
ghost use Rattle.journal.specs.Outcomes.{spelled_outcome, spelled_status, spelled_tag, spelled_warning};

use crate::answers::push_rows;
use crate::pieces::{
    push_coded, push_counted, push_quoted, push_refusal, push_set, push_word, size_of,
};
use backend_trait::Row;
use pool_base::{BackendSet, Code, NoMemory};
use session_machine::Status;
use session_orders::{Outcome, Tag};
use std::alloc::Global;
use wire_reply::tag_text;

/// A status is its letter.
pub(crate) fn push_status(status: Status, onto: &mut String) -> Result<(), NoMemory>
    ensures { OnOk result (string_bytes onto.new
        ≡ string_bytes onto.old ++ spelled_status status) }
{
    match status {
        Status::Idle => push_word("I", onto),
        Status::InBlock => push_word("T", onto),
        Status::Failed => push_word("E", onto),
    }
}

/// A tag as a client gets it, in quotes.
fn push_tag(alloc: Global, tag: Tag, onto: &mut String) -> Result<(), NoMemory>
    ensures { OnOk result (string_bytes onto.new ≡ string_bytes onto.old ++ spelled_tag tag) }
{
    let text = tag_text(alloc, tag)?;
    push_quoted(text.as_bytes(), onto)
}

/// A warning behind a tag, where there is one.
fn push_warning(warning: Option<Code>, onto: &mut String) -> Result<(), NoMemory>
    ensures { OnOk result (string_bytes onto.new
        ≡ string_bytes onto.old ++ spelled_warning warning) }
{
    match warning {
        None => Ok(()),
        Some(code) => push_coded(" warning ", code, onto),
    }
}

/// The result of a statement: its rows and its tag.
fn push_result(alloc: Global, rows: &[Row], tag: Tag, onto: &mut String) -> Result<(), NoMemory>
    ensures { OnOk result (string_bytes onto.new
        ≡ string_bytes onto.old ++ (spelled_rows rows.now ++ (32 ∷ spelled_tag tag))) }
{
    push_rows(rows, onto)?;
    push_word(" ", onto)?;
    push_tag(alloc, tag, onto)
}

fn push_done(
    alloc: Global,
    tag: Tag,
    warning: Option<Code>,
    onto: &mut String,
) -> Result<(), NoMemory>
    ensures { OnOk result (string_bytes onto.new ≡ string_bytes onto.old ++ (codes "done "
        ++ (spelled_tag tag ++ spelled_warning warning))) }
{
    push_word("done ", onto)?;
    push_tag(alloc, tag, onto)?;
    push_warning(warning, onto)
}

/// The attached backends: how many, and each.
fn push_nodes(attached: BackendSet, onto: &mut String) -> Result<(), NoMemory>
    ensures { OnOk result (string_bytes onto.new ≡ string_bytes onto.old ++ (codes "nodes "
        ++ (decimal (size attached.bits) ++ spelled_set attached))) }
{
    push_counted("nodes ", u64::from(size_of(attached)), onto)?;
    push_set(attached, onto)
}

pub(crate) fn push_outcome(
    alloc: Global,
    outcome: &Outcome,
    onto: &mut String,
) -> Result<(), NoMemory>
    ensures { OnOk result (string_bytes onto.new
        ≡ string_bytes onto.old ++ spelled_outcome outcome.now) }
{
    match outcome {
        Outcome::Rows { rows, tag } => push_result(alloc, rows.as_slice(), *tag, onto),
        Outcome::Done { tag, warning } => push_done(alloc, *tag, *warning, onto),
        Outcome::Settled => push_word("settled", onto),
        Outcome::Nodes(attached) => push_nodes(*attached, onto),
        Outcome::Error { code, name } => push_refusal("error ", *code, name.as_bytes(), onto),
    }
}
