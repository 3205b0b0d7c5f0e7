//! What stands for the session behind the wire: its status, and the outcomes that a dialogue gives.
ghost use Rattle.std.specs.Prelude.{◌≤◌, length};
ghost use Rattle.session_wire.specs.Answers.{MayAnswer};

use crate::given::{code_of, error_of, nodes_of, outcome_of};
use case_lines::Told;
use catalogue::Checked;
use pool_base::{Code, Text};
use session_orders::{OrderBody, Outcome, Tag};
use std::alloc::Global;

/// A session: its status, how many of the given outcomes were taken, and whether it is over.
#[derive(Drop)]
pub(crate) struct Behind {
    pub(crate) status: u8,
    pub(crate) taken: usize,
    pub(crate) is_over: bool,
}

impl Behind {
    /// A session that begins.
    pub(crate) fn new() -> Behind {
        Behind {
            status: b'I',
            taken: 0,
            is_over: false,
        }
    }
}

/// Outside a block begins one; in a block it warns.
fn begun(behind: &mut Behind) -> Outcome
    ensures { MayAnswer result }
{
    let warning = if behind.status == b'I' {
        None
    } else {
        code_of("25001")
    };
    behind.status = b'T';
    Outcome::Done {
        tag: Tag::Begin,
        warning,
    }
}

/// Ends a block, a failed one by rolling it back; outside a block it warns.
fn ended(behind: &mut Behind, tag: Tag) -> Outcome
    ensures { MayAnswer result }
{
    let warning = if behind.status == b'I' {
        code_of("25P01")
    } else {
        None
    };
    let tag = if behind.status == b'E' {
        Tag::Rollback
    } else {
        tag
    };
    behind.status = b'I';
    Outcome::Done { tag, warning }
}

/// A refusal, which fails a block.
fn refused(alloc: Global, behind: &mut Behind, code: Code, name: Text) -> Outcome
    ensures { MayAnswer result }
{
    fail(behind);
    if name.len() > 1000 {
        drop(name);
        return error_of(alloc, "XX000");
    }
    Outcome::Error { code, name }
}

fn fail(behind: &mut Behind) {
    if behind.status != b'I' {
        behind.status = b'E';
    }
}

/// A statement has the next of the given outcomes; where none is left, it is `XX000`.
fn run(alloc: Global, behind: &mut Behind, given: &str, checked: &Checked) -> Outcome
    ensures { MayAnswer result }
{
    let next = given.lines().nth(behind.taken).unwrap_or("error XX000");
    behind.taken = behind.taken.saturating_add(1);
    if next.starts_with("error ") {
        fail(behind);
    }
    outcome_of(alloc, checked, next)
}

/// The outcome that is given of an order that is none of a statement, behind the word of the order.
fn given_of<'a>(behind: &mut Behind, given: &'a str, word: &str) -> Option<&'a str> {
    let next = given.lines().nth(behind.taken)?;
    let rest = next.strip_prefix(word)?;
    behind.taken = behind.taken.saturating_add(1);
    Some(rest)
}

/// A recovery's error: its code, and behind it the name where it has one.
fn not_recovered(alloc: Global, behind: &mut Behind, given: &str) -> Outcome
    ensures { MayAnswer result }
{
    let Some((code, name)) = given.split_once(' ') else {
        return error_of(alloc, given);
    };
    match (code_of(code), Text::from_str(alloc, name)) {
        (Some(code), Ok(name)) => refused(alloc, behind, code, name),
        _ => error_of(alloc, "XX000"),
    }
}

/// The outcome of a recovery: the error that is given of it, or that the backend is back.
fn recovered(alloc: Global, behind: &mut Behind, given: &str) -> Outcome
    ensures { MayAnswer result }
{
    match given_of(behind, given, "recover error ") {
        Some(error) => not_recovered(alloc, behind, error),
        None => Outcome::Done {
            tag: Tag::Recover,
            warning: None,
        },
    }
}

/// The outcome of an order that is none of a statement: the one that is given of it, or what
/// becomes of it where nothing goes wrong.
fn other(alloc: Global, behind: &mut Behind, given: &str, body: OrderBody) -> Outcome
    ensures { MayAnswer result }
{
    match body {
        OrderBody::Begin => begun(behind),
        OrderBody::Commit => match given_of(behind, given, "commit error ") {
            Some(code) => {
                fail(behind);
                error_of(alloc, code)
            }
            None => ended(behind, Tag::Commit),
        },
        OrderBody::Settle => match given_of(behind, given, "settle error ") {
            Some(code) => error_of(alloc, code),
            None => Outcome::Settled,
        },
        OrderBody::ShowNodes => match given_of(behind, given, "nodes ") {
            Some(numbers) => Outcome::Nodes(nodes_of(numbers)),
            None => {
                fail(behind);
                error_of(alloc, "57P03")
            }
        },
        OrderBody::Refuse { code, name } => refused(alloc, behind, code, name),
        OrderBody::Rollback => ended(behind, Tag::Rollback),
        OrderBody::Recover(_) => recovered(alloc, behind, given),
        rest => {
            drop(rest);
            Outcome::Settled
        }
    }
}

/// What becomes of an order.
pub(crate) fn outcome(alloc: Global, behind: &mut Behind, given: &str, body: OrderBody) -> Outcome
    ensures { MayAnswer result }
{
    match body {
        OrderBody::Statement(checked) => run(alloc, behind, given, checked.get()),
        rest => other(alloc, behind, given, rest),
    }
}

/// The outcomes that the lines of a dialogue give behind ` <- `, each in a line of its own.
pub(crate) fn put_given(lines: &str, given: &mut Told) {
    for line in lines.lines() {
        if let Some((_, outcomes)) = line.split_once(" <- ") {
            for one in outcomes.split("; ") {
                given.put(one);
                given.put("\n");
            }
        }
    }
}
