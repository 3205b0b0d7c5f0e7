//! Which answer is kept, and which differs from it, by their places in the chain.
ghost use Rattle.std.specs.Prelude.{◌≡◌, ◌<◌, length, find, option_map, IfSome};
ghost use Rattle.session_machine.specs.Answers.{is_kept, kept, is_other, first_other, goes_on};
ghost use Rattle.session_engine.specs.Places.{heard_at};

use backend_trait::Answer;
use pool_base::BackendSet;
use session_machine::{Heard, goes_on, is_kept, is_other};

/// The place of the first kept answer of these.
fn kept_among(attached: BackendSet, all: &[Heard], heard: &[Heard]) -> Option<usize>
    ensures is { option_map (heard_at heard.now) result ≡ find (is_kept attached.bits all.now)
        heard.now }
    ensures within { IfSome result (λ place. place < length heard.now) }
{
    let [first, others @ ..] = heard else {
        return None;
    };
    if is_kept(attached, all, first) {
        return Some(0);
    }
    match kept_among(attached, all, others) {
        Some(place) => Some(place + 1),
        None => None,
    }
}

/// The place of the kept answer.
pub(crate) fn kept_at(attached: BackendSet, heard: &[Heard]) -> Option<usize>
    ensures { option_map (heard_at heard.now) result ≡ kept attached.bits heard.now }
{
    kept_among(attached, heard, heard)
}

/// The place of the first answer, from a backend's number on, that is another than this one.
fn other_among(attached: BackendSet, answer: &Answer, from: u8, heard: &[Heard]) -> Option<usize>
    ensures is { option_map (heard_at heard.now) result ≡ first_other attached.bits answer.now from
        heard.now }
    ensures within { IfSome result (λ place. place < length heard.now) }
{
    let [first, others @ ..] = heard else {
        return None;
    };
    if is_other(attached, answer, from, first) {
        return Some(0);
    }
    match other_among(attached, answer, from, others) {
        Some(place) => Some(place + 1),
        None => None,
    }
}

/// The place of the first answer, from a backend's number on, that is another than the one at
/// `best`.
pub(crate) fn other_at(
    attached: BackendSet,
    heard: &[Heard],
    best: usize,
    from: u8,
) -> Option<usize>
    ensures { option_map (heard_at heard.now) result ≡ first_other attached.bits
        (heard_at heard.now best).answer from heard.now }
{
    match heard.get(best) {
        Some(best) => other_among(attached, &best.answer, from, heard),
        None => other_among(attached, &Answer::Began, from, heard),
    }
}

/// Whether the chain goes on behind a judgement by the answer at `best`.
pub(crate) fn goes_on_at(attached: BackendSet, heard: &[Heard], best: usize) -> bool
    ensures { result ≡ goes_on attached.bits heard.now (heard_at heard.now best).answer }
{
    match heard.get(best) {
        Some(best) => goes_on(attached, heard, &best.answer),
        None => goes_on(attached, heard, &Answer::Began),
    }
}
