//! Which servers are as the schema wants, which agree, and which group of them is kept.
ghost use Rattle.std.specs.Prelude.{◌≡◌, ◌≤◌, ◌<◌, ◌+◌, ◌^◌, [], find, length, option_copied, IfNone};
ghost use Rattle.std.specs.List.{list_all};
ghost use Rattle.server_check.specs.Servers.{AreUnfit, chosen, differs_from, group_size, is_fit, is_kept, is_no_larger, kept, meets_at, unfit_from, weight};

use crate::answer::{Answer, are_same, is_same_at};
use crate::faults::meets;
use crate::question::Question;
use crate::server::Server;

/// Whether there is an answer, and it is what is wanted.
fn meets_at(question: &Question, told: Option<&Answer>) -> bool
    ensures { result ≡ meets_at question.now (option_copied told.entry) }
{
    match told {
        Some(told) => meets(question, told),
        None => false,
    }
}

/// The number of the first of the questions, from that number on, whose answer is not what is
/// wanted.
pub(crate) fn unfit_from(questions: &[Question], number: usize, told: &[Answer]) -> Option<usize>
    requires { number + length questions.now < 2 ^ 64 }
    ensures { result ≡ unfit_from told.now number questions.now }
{
    let [question, others @ ..] = questions else {
        return None;
    };
    if meets_at(question, told.get(number)) {
        return unfit_from(others, number + 1, told);
    }
    Some(number)
}

/// Whether each answer of a server is what is wanted.
fn is_fit(questions: &[Question], one: &Server) -> bool
    ensures { result ≡ is_fit questions.now one.now }
{
    unfit_from(questions, 0, one.answers.as_slice()).is_none()
}

/// How many of the servers give the answers of this one.
fn group_size(servers: &[Server], one: &Server) -> usize
    ensures is { result ≡ group_size servers.now one.now }
    ensures few { result ≤ length servers.now }
{
    let [first, others @ ..] = servers else {
        return 0;
    };
    let more = group_size(others, one);
    if are_same(first.answers.as_slice(), one.answers.as_slice()) {
        return 1 + more;
    }
    more
}

/// One more than the size of a server's group. Of one that is not as it is wanted: 0.
fn weight(questions: &[Question], all: &[Server], one: &Server) -> usize
    ensures { result ≡ weight questions.now all.now one.now }
{
    if is_fit(questions, one) {
        return 1 + group_size(all, one);
    }
    0
}

#[tactic(auto, unfolding(crate::specs::Servers::is_no_larger))]
fn is_no_larger(questions: &[Question], all: &[Server], size: usize, one: &Server) -> bool
    ensures { result ≡ is_no_larger questions.now all.now size one.now }
{
    weight(questions, all, one) <= size
}

/// Whether no group of these is larger.
fn are_no_larger(questions: &[Question], all: &[Server], size: usize, servers: &[Server]) -> bool
    ensures { result ≡ list_all (is_no_larger questions.now all.now size) servers.now }
{
    let [first, others @ ..] = servers else {
        return true;
    };
    is_no_larger(questions, all, size, first) && are_no_larger(questions, all, size, others)
}

/// Whether a server is as it is wanted, and of a largest group of such.
#[tactic(auto, unfolding(crate::specs::Servers::is_kept))]
fn is_kept(questions: &[Question], all: &[Server], one: &Server) -> bool
    ensures { result ≡ is_kept questions.now all.now one.now }
{
    let size = weight(questions, all, one);
    0 < size && are_no_larger(questions, all, size, all)
}

/// The first of these that is of a largest group.
fn kept_among<'a>(
    questions: &[Question],
    all: &[Server],
    servers: &'a [Server],
) -> Option<&'a Server>
    ensures { option_copied result ≡ find (is_kept questions.now all.now) servers.now }
{
    let [first, others @ ..] = servers else {
        return None;
    };
    if is_kept(questions, all, first) {
        return Some(first);
    }
    kept_among(questions, all, others)
}

#[tactic(auto, using(crate::proofs::Largest::none_is_kept))]
/// The server whose group is kept: the first of a largest group of those that are as the questions
/// want them.
pub fn kept<'a>(questions: &[Question], servers: &'a [Server]) -> Option<&'a Server>
    ensures kept { option_copied result ≡ kept questions.now servers.now }
    ensures none { IfNone result (AreUnfit questions.now servers.now) }
{
    kept_among(questions, servers, servers)
}

#[tactic(auto, using(crate::proofs::Largest::nobody_is_chosen))]
/// The server that the others are compared with: the one that is kept, and where none is as it is
/// wanted the first of a largest group. None: there is no server.
pub fn chosen<'a>(questions: &[Question], servers: &'a [Server]) -> Option<&'a Server>
    ensures chosen { option_copied result ≡ chosen questions.now servers.now }
    ensures none { IfNone result (servers.now ≡ []) }
{
    match kept(questions, servers) {
        Some(one) => Some(one),
        None => kept(&[], servers),
    }
}

/// The number of the first of the questions, from that number on, to which two servers do not give
/// the same answer.
pub(crate) fn differs_from(
    questions: &[Question],
    number: usize,
    kept: &[Answer],
    told: &[Answer],
) -> Option<usize>
    requires { number + length questions.now < 2 ^ 64 }
    ensures { result ≡ differs_from kept.now told.now number questions.now }
{
    let [_, others @ ..] = questions else {
        return None;
    };
    if is_same_at(kept.get(number), told.get(number)) {
        return differs_from(others, number + 1, kept, told);
    }
    Some(number)
}
