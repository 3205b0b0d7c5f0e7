//! The answers of a chain: who is asked next, whose answer is kept, and whose differs from it.
ghost use Rattle.std.specs.Prelude.{◌≡◌, ◌≤◌, ◌<◌, ◌+◌, ℕ, Some, find, count_by, length, option_copied};
ghost use Rattle.std.specs.List.{list_all};
ghost use Rattle.backend_trait.specs.Store.{is_refusal};
ghost use Rattle.read_balance.specs.Picking.{weight_of_all};
ghost use Rattle.session_machine.specs.Answers.{all_backends, is_same, is_attached, lowest, has_answered, has_refused, is_open, first_open, is_stopped, next_of, counts, is_in_group, group_size, is_no_larger, is_largest, is_kept, kept, is_other, first_other, goes_on, turn_of, reader};

use crate::machine::{Heard, ReadPolicy};
use backend_trait::Answer;
use pool_base::{BackendId, BackendSet};
use read_balance::pick;
use write_path::ChainKind;

/// The backends, by number.
fn all_backends() -> [BackendId; 8]
    ensures { result ≡ all_backends }
{
    [
        BackendId { number: 0 },
        BackendId { number: 1 },
        BackendId { number: 2 },
        BackendId { number: 3 },
        BackendId { number: 4 },
        BackendId { number: 5 },
        BackendId { number: 6 },
        BackendId { number: 7 },
    ]
}

/// The first attached one of these.
fn first_attached(all: &[BackendId], attached: BackendSet) -> Option<BackendId>
    ensures { result ≡ find (is_attached attached.bits) all.now }
{
    let [b, others @ ..] = all else {
        return None;
    };
    if attached.has(*b) {
        return Some(*b);
    }
    first_attached(others, attached)
}

/// The primary.
pub fn lowest(attached: BackendSet) -> Option<BackendId>
    ensures { result ≡ lowest attached.bits }
{
    first_attached(&all_backends(), attached)
}

/// Whether a backend has answered.
fn has_answered(heard: &[Heard], b: BackendId) -> bool
    ensures { result ≡ has_answered heard.now b }
{
    let [first, others @ ..] = heard else {
        return false;
    };
    if first.b.number == b.number {
        return true;
    }
    has_answered(others, b)
}

/// Whether an answer is a refusal.
pub fn is_refusal(answer: &Answer) -> bool
    ensures { result ≡ is_refusal answer.now }
{
    match answer {
        Answer::Refused(_) => true,
        Answer::Began
        | Answer::Rows(_)
        | Answer::Count(_)
        | Answer::Locked
        | Answer::Done
        | Answer::Serial(_) => false,
    }
}

/// Whether a backend has refused.
fn has_refused(heard: &[Heard], b: BackendId) -> bool
    ensures { result ≡ has_refused heard.now b }
{
    let [first, others @ ..] = heard else {
        return false;
    };
    if first.b.number == b.number {
        return is_refusal(&first.answer);
    }
    has_refused(others, b)
}

/// The first of these that is attached and has not answered.
fn open_among(all: &[BackendId], attached: BackendSet, heard: &[Heard]) -> Option<BackendId>
    ensures { result ≡ find (is_open attached.bits heard.now) all.now }
{
    let [b, others @ ..] = all else {
        return None;
    };
    if attached.has(*b) && !has_answered(heard, *b) {
        return Some(*b);
    }
    open_among(others, attached, heard)
}

/// The lowest attached backend that has not answered.
fn first_open(attached: BackendSet, heard: &[Heard]) -> Option<BackendId>
    ensures { result ≡ first_open attached.bits heard.now }
{
    open_among(&all_backends(), attached, heard)
}

/// Whether the primary's refusal ends the chain.
fn is_stopped(kind: ChainKind, heard: &[Heard], primary: Option<BackendId>) -> bool
    ensures { result ≡ is_stopped kind heard.now primary }
{
    match kind {
        ChainKind::All => false,
        ChainKind::StopAtRefusal => match primary {
            Some(b) => has_refused(heard, b),
            None => false,
        },
    }
}

/// Who is asked next. None: the chain is at its end.
pub fn next_of(kind: ChainKind, attached: BackendSet, heard: &[Heard]) -> Option<BackendId>
    ensures { result ≡ next_of kind attached.bits heard.now }
{
    if is_stopped(kind, heard, lowest(attached)) {
        return None;
    }
    first_open(attached, heard)
}

/// Whether an answer counts.
pub fn counts(attached: BackendSet, heard: &Heard) -> bool
    ensures { result ≡ counts attached.bits heard.now }
{
    attached.has(heard.b)
}

fn is_in_group(attached: BackendSet, answer: &Answer, heard: &Heard) -> bool
    ensures { result ≡ is_in_group attached.bits answer.now heard.now }
{
    counts(attached, heard) && heard.answer == *answer
}

/// How many answers that count are this one.
fn group_size(attached: BackendSet, heard: &[Heard], answer: &Answer) -> usize
    ensures is { result ≡ group_size attached.bits heard.now answer.now }
    ensures few { result ≤ length heard.now }
{
    let [first, others @ ..] = heard else {
        return 0;
    };
    let more = group_size(attached, others, answer);
    if is_in_group(attached, answer, first) {
        return 1 + more;
    }
    more
}

#[tactic(auto, unfolding(crate::specs::Answers::is_no_larger))]
fn is_no_larger(attached: BackendSet, all: &[Heard], size: usize, heard: &Heard) -> bool
    ensures { result ≡ is_no_larger attached.bits all.now size heard.now }
{
    !counts(attached, heard) || group_size(attached, all, &heard.answer) <= size
}

/// Whether no group of these is larger.
fn are_no_larger(attached: BackendSet, all: &[Heard], size: usize, heard: &[Heard]) -> bool
    ensures { result ≡ list_all (is_no_larger attached.bits all.now size) heard.now }
{
    let [first, others @ ..] = heard else {
        return true;
    };
    is_no_larger(attached, all, size, first) && are_no_larger(attached, all, size, others)
}

/// Whether an answer counts and is of a largest group.
#[tactic(auto, unfolding(crate::specs::Answers::is_kept))]
pub fn is_kept(attached: BackendSet, all: &[Heard], heard: &Heard) -> bool
    ensures { result ≡ is_kept attached.bits all.now heard.now }
{
    counts(attached, heard)
        && are_no_larger(attached, all, group_size(attached, all, &heard.answer), all)
}

/// The first kept answer of these.
fn kept_among<'a>(attached: BackendSet, all: &[Heard], heard: &'a [Heard]) -> Option<&'a Heard>
    ensures { option_copied result ≡ find (is_kept attached.bits all.now) heard.now }
{
    let [first, others @ ..] = heard else {
        return None;
    };
    if is_kept(attached, all, first) {
        return Some(first);
    }
    kept_among(attached, all, others)
}

/// The kept answer.
pub fn kept(attached: BackendSet, heard: &[Heard]) -> Option<&Heard>
    ensures { option_copied result ≡ kept attached.bits heard.now }
{
    kept_among(attached, heard, heard)
}

/// Whether an answer that counts, of a backend from a number on, is another than this one.
pub fn is_other(attached: BackendSet, answer: &Answer, from: u8, heard: &Heard) -> bool
    ensures { result ≡ is_other attached.bits answer.now from heard.now }
{
    counts(attached, heard) && (from <= heard.b.number && !(heard.answer == *answer))
}

/// The first answer, from a number on, that is another than this one.
pub fn first_other<'a>(
    attached: BackendSet,
    answer: &Answer,
    from: u8,
    heard: &'a [Heard],
) -> Option<&'a Heard>
    ensures { option_copied result ≡ first_other attached.bits answer.now from heard.now }
{
    let [first, others @ ..] = heard else {
        return None;
    };
    if is_other(attached, answer, from, first) {
        return Some(first);
    }
    first_other(attached, answer, from, others)
}

/// Whether the chain goes on behind a judgement.
pub fn goes_on(attached: BackendSet, heard: &[Heard], answer: &Answer) -> bool
    ensures { result ≡ goes_on attached.bits heard.now answer.now }
{
    !is_refusal(answer) && first_open(attached, heard).is_some()
}

/// The backend whose turn it is.
fn turn_of(weights: &[u32], attached: BackendSet, ticket: u64, primary: BackendId) -> BackendId
    requires eight { length weights.now ≡ 8 }
    requires primary { lowest attached.bits ≡ Some primary }
    ensures { Some result ≡ turn_of weights.now attached.bits ticket
        (weight_of_all weights.now attached.bits) primary }
{
    pick(weights, attached, ticket)
}

/// The backend that reads.
pub fn reader(policy: &ReadPolicy, attached: BackendSet, ticket: u64) -> Option<BackendId>
    ensures { result ≡ reader policy.now attached.bits ticket }
{
    match lowest(attached) {
        None => None,
        Some(primary) => {
            if policy.balance {
                Some(turn_of(&policy.weights, attached, ticket, primary))
            } else {
                Some(primary)
            }
        }
    }
}
