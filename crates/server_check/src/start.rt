//! Which backends are attached at the start.
ghost use Rattle.std.specs.Prelude.{◌≡◌, ◌==◌, ◌<◌, ℕ, false, find, if◌then◌else◌, is_none, option_copied};
ghost use Rattle.pool_base.specs.Sets.{has};
ghost use Rattle.server_check.specs.Start.{fault_of, found_of, has_number, is_at, lower_twin, out_of};

use crate::groups::{differs_from, kept, unfit_from};
use crate::question::Question;
use crate::server::{Identity, Server};
use crate::twins::twin_of;
use pool_base::{BackendId, BackendSet, List};

/// What was found before the start.
#[derive(Drop)]
pub struct Findings {
    /// The backends of the configuration that the status file lets be attached.
    pub up: BackendSet,
    /// Those of them whose servers are not there, or let the check begin no session.
    pub absent: BackendSet,
    /// Which servers the others are.
    pub identities: List<Identity>,
    /// What they were asked.
    pub questions: List<Question>,
    /// Those that have answered to the end.
    pub servers: List<Server>,
    /// Those whose next numbers are not set.
    pub unset: BackendSet,
}

/// Why a backend is not attached at the start. Of several reasons it is the first.
#[derive(Clone, Copy)]
pub enum Out {
    /// It is not of the configuration, or down in the status file.
    Down,
    /// Its server is not there, or lets the check begin no session.
    Absent,
    /// It is the server of that lower number.
    Twin(BackendId),
    /// It has not answered to the end.
    Silent,
    /// It does not answer the question with that number as is wanted.
    Unfit(usize),
    /// It does not answer the question with that number as the kept group does.
    Differs(usize),
    /// Its next numbers are not set.
    Unset,
}

/// The server with that number.
pub fn server_at(servers: &[Server], b: BackendId) -> Option<&Server>
    ensures { option_copied result ≡ find (has_number b.number) servers.now }
{
    let [first, others @ ..] = servers else {
        return None;
    };
    if first.number.number == b.number {
        return Some(first);
    }
    server_at(others, b)
}

/// The identity of that number.
fn identity_at(identities: &[Identity], b: BackendId) -> Option<&Identity>
    ensures { option_copied result ≡ find (is_at b.number) identities.now }
{
    let [first, others @ ..] = identities else {
        return None;
    };
    if first.number.number == b.number {
        return Some(first);
    }
    identity_at(others, b)
}

/// The first lower number that is the same server.
fn lower_twin(identities: &[Identity], b: BackendId) -> Option<BackendId>
    ensures { result ≡ lower_twin identities.now b.number }
{
    let Some(one) = identity_at(identities, b) else {
        return None;
    };
    match twin_of(identities, one) {
        Some(lower) => Some(lower.number),
        None => None,
    }
}

/// Why a server that has answered to the end is not attached.
fn fault_of(findings: &Findings, server: &Server) -> Option<Out>
    ensures { result ≡ fault_of findings.now server.now }
{
    let questions = findings.questions.as_slice();
    let told = server.answers.as_slice();
    if let Some(number) = unfit_from(questions, 0, told) {
        return Some(Out::Unfit(number));
    }
    let Some(kept) = kept(questions, findings.servers.as_slice()) else {
        return None;
    };
    match differs_from(questions, 0, kept.answers.as_slice(), told) {
        Some(number) => Some(Out::Differs(number)),
        None => None,
    }
}

/// Why a backend that was asked is not attached.
fn found_of(findings: &Findings, b: BackendId) -> Option<Out>
    ensures { result ≡ found_of findings.now b.number }
{
    if let Some(lower) = lower_twin(findings.identities.as_slice(), b) {
        return Some(Out::Twin(lower));
    }
    let Some(server) = server_at(findings.servers.as_slice(), b) else {
        return Some(Out::Silent);
    };
    if let Some(out) = fault_of(findings, server) {
        return Some(out);
    }
    if findings.unset.has(b) {
        return Some(Out::Unset);
    }
    None
}

/// Why a backend is not attached at the start. None: it is.
pub fn out_of(findings: &Findings, b: BackendId) -> Option<Out>
    ensures { result ≡ out_of findings.now b.number }
{
    if !findings.up.has(b) {
        return Some(Out::Down);
    }
    if findings.absent.has(b) {
        return Some(Out::Absent);
    }
    found_of(findings, b)
}

#[tactic(auto, using(serve_base::proofs::Sets::none_yet, serve_base::proofs::Sets::one_more_in))]
/// The backends that are attached at the start: those for which there is no reason why not. Each is
/// of the configuration and not down in the status file, its server is that of no lower number,
/// and it answers each question as the schema wants it and as the largest group of such servers.
pub fn attached_by(findings: &Findings) -> BackendSet
    ensures { (b : ℕ) → b < 8 → has result.bits b ≡ is_none (out_of findings.now b) }
{
    let mut attached = BackendSet::EMPTY;
    for number in 0..8 {
        let b = BackendId { number };
        attached = with_one_more(attached, b, out_of(findings, b).is_none());
    }
    attached
}

#[tactic(auto, using(serve_base::proofs::Sets::none_more))]
/// The set, with that backend where it is to be in it.
fn with_one_more(set: BackendSet, b: BackendId, is_in: bool) -> BackendSet
    requires { has set.bits b.number ≡ false }
    ensures { (c : ℕ) → c < 8 → has result.bits c
        ≡ (if c == b.number then is_in else has set.bits c) }
{
    if is_in { set.with(b) } else { set }
}
