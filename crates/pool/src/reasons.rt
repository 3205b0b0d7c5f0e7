//! Why backends are not attached, or not equal, in words.

use pool_base::{BackendId, List, NoMemory, Text};
use pool_config::Config;
use server_check::{
    Findings, Out, Reason, Start, Verdict, difference, judge, kept, out_of, server_at,
};
use std::alloc::Global;

/// The reason that was kept of a backend, or else the common one.
fn kept_reason<'a>(reasons: &'a [Reason], b: BackendId) -> &'a str {
    for reason in reasons {
        if reason.number == b {
            return reason.why.as_str();
        }
    }
    "it was not there at the start"
}

/// What the server of a backend answers to a question, and what it is to answer.
fn fault_words(
    alloc: Global,
    findings: &Findings,
    b: BackendId,
    number: usize,
) -> Result<String, NoMemory> {
    let (questions, servers) = (findings.questions.as_slice(), findings.servers.as_slice());
    match server_at(servers, b) {
        Some(server) => difference(alloc, questions, kept(questions, servers), server, number),
        None => Ok(String::new(alloc)),
    }
}

/// Why a backend is not attached, in words.
fn words_of(alloc: Global, start: &Start, b: BackendId, out: Out) -> Result<String, NoMemory> {
    let reasons = start.reasons.as_slice();
    match out {
        Out::Down => Ok(String::from_str(alloc, "it is down")?),
        Out::Absent => Ok(String::from_str(alloc, kept_reason(reasons, b))?),
        Out::Twin(lower) => {
            let lower = lower.number;
            Ok(format!(in alloc; "it is the server and database of backend {lower}")?)
        }
        Out::Silent => Ok(String::from_str(alloc, "its session was lost while it was compared")?),
        Out::Unfit(number) | Out::Differs(number) => {
            fault_words(alloc, &start.findings, b, number)
        }
        Out::Unset => Ok(String::from_str(alloc, "its next numbers are not set")?),
    }
}

/// Why the backends that are up and not attached are not.
pub(crate) fn reasons_of(alloc: Global, start: &Start) -> Result<List<Reason>, NoMemory> {
    let mut reasons = List::new(alloc);
    for number in 0..8_u8 {
        let b = BackendId { number };
        if start.findings.up.has(b) {
            if let Some(out) = out_of(&start.findings, b) {
                let why = Text::from_string(words_of(alloc, start, b, out)?);
                reasons.push(Reason { number: b, why })?;
            }
        }
    }
    Ok(reasons)
}

/// Whether it is told of a backend that it was not compared.
fn is_uncompared(out: Out) -> bool {
    matches!(out, Out::Absent | Out::Twin(_) | Out::Silent)
}

/// The line of a backend that was not compared.
fn line_of(alloc: Global, config: &Config, b: BackendId, words: &str) -> Result<Text, NoMemory> {
    let (host, port) = match config.nodes.get(usize::from(b.number)) {
        Some(node) => (node.host.as_str(), node.port),
        None => ("", 0),
    };
    let b = b.number;
    let line = format!(in alloc; "backend {b} ({host}, port {port}): {words}")?;
    Ok(Text::from_string(line))
}

/// A line for each backend that was not compared.
fn uncompared(alloc: Global, config: &Config, start: &Start) -> Result<List<Text>, NoMemory> {
    let mut lines = List::new(alloc);
    for number in 0..8_u8 {
        let b = BackendId { number };
        if let Some(out) = out_of(&start.findings, b) {
            if start.findings.up.has(b) && is_uncompared(out) {
                let words = words_of(alloc, start, b, out)?;
                lines.push(line_of(alloc, config, b, words.as_str())?)?;
            }
        }
    }
    Ok(lines)
}

/// Puts the lines of what is found behind the others.
fn put_verdict(alloc: Global, verdict: Verdict, onto: &mut List<Text>) -> Result<(), NoMemory> {
    match verdict {
        Verdict::Equal => Ok(()),
        Verdict::Nobody => onto.push(Text::from_str(alloc, "no backend was asked")?),
        Verdict::Differ { lines, group } => {
            onto.append(lines)?;
            onto.push(group)
        }
    }
}

/// A line for each difference. None: the servers are equal, and as the schema says.
pub(crate) fn lines_of(
    alloc: Global,
    config: &Config,
    start: &Start,
) -> Result<List<Text>, NoMemory> {
    let mut lines = uncompared(alloc, config, start)?;
    let findings = &start.findings;
    let verdict = judge(
        alloc,
        findings.questions.as_slice(),
        findings.servers.as_slice(),
    )?;
    put_verdict(alloc, verdict, &mut lines)?;
    Ok(lines)
}
