//! What backends answer.

use crate::fault::LineFault;
use crate::values::rows;
use crate::words::{code, number, signed};
use backend_trait::Answer;
use std::alloc::Global;

/// The word in front of an answer.
#[derive(Clone, Copy)]
enum Kind {
    Began,
    Rows,
    Count,
    Locked,
    Done,
    Serial,
    Refused,
}

/// The word in front, and the bytes after it.
fn kind_of(bytes: &[u8]) -> Option<(Kind, &[u8])> {
    if let Some(rest) = bytes.strip_prefix(b"began") {
        return Some((Kind::Began, rest));
    }
    if let Some(rest) = bytes.strip_prefix(b"rows ") {
        return Some((Kind::Rows, rest));
    }
    if let Some(rest) = bytes.strip_prefix(b"count ") {
        return Some((Kind::Count, rest));
    }
    if let Some(rest) = bytes.strip_prefix(b"locked") {
        return Some((Kind::Locked, rest));
    }
    if let Some(rest) = bytes.strip_prefix(b"done") {
        return Some((Kind::Done, rest));
    }
    if let Some(rest) = bytes.strip_prefix(b"serial ") {
        return Some((Kind::Serial, rest));
    }
    if let Some(rest) = bytes.strip_prefix(b"refused ") {
        return Some((Kind::Refused, rest));
    }
    None
}

fn rows_answer(alloc: Global, bytes: &[u8]) -> Result<Answer, LineFault> {
    Ok(Answer::Rows(rows(alloc, bytes)?))
}

fn count(bytes: &[u8]) -> Result<Answer, LineFault> {
    Ok(Answer::Count(number(bytes)?.0))
}

fn serial(bytes: &[u8]) -> Result<Answer, LineFault> {
    Ok(Answer::Serial(signed(bytes)?.0))
}

fn refused(bytes: &[u8]) -> Result<Answer, LineFault> {
    Ok(Answer::Refused(code(bytes)?.0))
}

/// The answer behind that word.
fn answer_of(alloc: Global, kind: Kind, rest: &[u8]) -> Result<Answer, LineFault> {
    match kind {
        Kind::Began => Ok(Answer::Began),
        Kind::Rows => rows_answer(alloc, rest),
        Kind::Count => count(rest),
        Kind::Locked => Ok(Answer::Locked),
        Kind::Done => Ok(Answer::Done),
        Kind::Serial => serial(rest),
        Kind::Refused => refused(rest),
    }
}

/// The answer that the bytes begin with.
pub(crate) fn answer(alloc: Global, bytes: &[u8]) -> Result<Answer, LineFault> {
    match kind_of(bytes) {
        Some((kind, rest)) => answer_of(alloc, kind, rest),
        None => Err(LineFault::BadLine),
    }
}
