//! The backends of a chain that are still to be asked.
ghost use Rattle.std.specs.Prelude.{◌≡◌, ◌≤◌, length, filter};
ghost use Rattle.std.specs.List.{slice_get, list_all};
ghost use Rattle.session_machine.specs.Answers.{all_backends, has_answered, has_refused};
ghost use Rattle.session_ahead.specs.Coming.{is_open_but, is_past_at, is_began, begun_there};

use backend_trait::Answer;
use pool_base::{BackendId, BackendSet};
use session_machine::{Heard, is_refusal};

/// The backends, by number.
pub(crate) fn all_backends() -> [BackendId; 8]
    ensures { result ≡ all_backends }
{
    [
        BackendId { number: 0 },
        BackendId { number: 1 },
        BackendId { number: 2 },
        BackendId { number: 3 },
        BackendId { number: 4 },
        BackendId { number: 5 },
        BackendId { number: 6 },
        BackendId { number: 7 },
    ]
}

/// Whether a backend has answered.
fn has_answered(heard: &[Heard], b: BackendId) -> bool
    ensures { result ≡ has_answered heard.now b }
{
    let [first, others @ ..] = heard else {
        return false;
    };
    if first.b.number == b.number {
        return true;
    }
    has_answered(others, b)
}

/// Whether a backend has refused.
fn has_refused(heard: &[Heard], b: BackendId) -> bool
    ensures { result ≡ has_refused heard.now b }
{
    let [first, others @ ..] = heard else {
        return false;
    };
    if first.b.number == b.number {
        return is_refusal(&first.answer);
    }
    has_refused(others, b)
}

/// Whether the primary has answered, and has not refused.
pub(crate) fn is_past(heard: &[Heard], primary: Option<BackendId>) -> bool
    ensures { result ≡ is_past_at heard.now primary }
{
    match primary {
        None => false,
        Some(b) => has_answered(heard, b) && !has_refused(heard, b),
    }
}

fn is_began(answer: &Answer) -> bool
    ensures { result ≡ is_began answer.now }
{
    match answer {
        Answer::Began => true,
        Answer::Rows(_)
        | Answer::Count(_)
        | Answer::Locked
        | Answer::Done
        | Answer::Serial(_)
        | Answer::Refused(_) => false,
    }
}

/// Whether each of these is a snapshot that was taken.
pub(crate) fn have_begun(heard: &[Heard]) -> bool
    ensures { result ≡ list_all begun_there heard.now }
{
    let [first, others @ ..] = heard else {
        return true;
    };
    is_began(&first.answer) && have_begun(others)
}

/// Whether a backend is attached, has not answered, and is another than the one that is asked.
fn is_open_but(attached: BackendSet, heard: &[Heard], asked: BackendId, b: BackendId) -> bool
    ensures { result ≡ is_open_but attached.bits heard.now asked b }
{
    attached.has(b) && !has_answered(heard, b) && b.number != asked.number
}

/// The one at that place of those that are still to be asked behind `asked`.
pub(crate) fn open_at(
    all: &[BackendId],
    attached: BackendSet,
    heard: &[Heard],
    asked: BackendId,
    at: usize,
) -> Option<BackendId>
    ensures { result ≡ slice_get (filter (is_open_but attached.bits heard.now asked) all.now) at }
{
    let [b, others @ ..] = all else {
        return None;
    };
    if !is_open_but(attached, heard, asked, *b) {
        return open_at(others, attached, heard, asked, at);
    }
    if at == 0 {
        return Some(*b);
    }
    open_at(others, attached, heard, asked, at - 1)
}

/// How many are still to be asked behind `asked`.
pub(crate) fn open_count(
    all: &[BackendId],
    attached: BackendSet,
    heard: &[Heard],
    asked: BackendId,
) -> usize
    ensures is { result ≡ length (filter (is_open_but attached.bits heard.now asked) all.now) }
    ensures few { result ≤ length all.now }
{
    let [b, others @ ..] = all else {
        return 0;
    };
    let more = open_count(others, attached, heard, asked);
    if is_open_but(attached, heard, asked, *b) {
        return 1 + more;
    }
    more
}
