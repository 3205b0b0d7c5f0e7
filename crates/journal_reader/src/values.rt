//! Rows and their values.

use crate::fault::LineFault;
use crate::words::{number, signed, text, word};
use backend_trait::Row;
use pg_values::Value;
use pool_base::List;
use std::alloc::Global;

/// The type in front of a value.
#[derive(Clone, Copy)]
enum Kind {
    Null,
    True,
    False,
    Int4,
    Int8,
    Text,
    Moment,
}

/// The type in front, and the bytes after it.
fn kind_of(bytes: &[u8]) -> Option<(Kind, &[u8])> {
    if let Some(rest) = bytes.strip_prefix(b"null") {
        return Some((Kind::Null, rest));
    }
    if let Some(rest) = bytes.strip_prefix(b"bool:t") {
        return Some((Kind::True, rest));
    }
    if let Some(rest) = bytes.strip_prefix(b"bool:f") {
        return Some((Kind::False, rest));
    }
    if let Some(rest) = bytes.strip_prefix(b"int4:") {
        return Some((Kind::Int4, rest));
    }
    if let Some(rest) = bytes.strip_prefix(b"int8:") {
        return Some((Kind::Int8, rest));
    }
    if let Some(rest) = bytes.strip_prefix(b"text:") {
        return Some((Kind::Text, rest));
    }
    if let Some(rest) = bytes.strip_prefix(b"moment:") {
        return Some((Kind::Moment, rest));
    }
    None
}

fn int4(bytes: &[u8]) -> Result<(Value, &[u8]), LineFault> {
    let (n, rest) = signed(bytes)?;
    match i32::try_from(n) {
        Ok(n) => Ok((Value::Int4(n), rest)),
        Err(_) => Err(LineFault::BadLine),
    }
}

fn int8(bytes: &[u8]) -> Result<(Value, &[u8]), LineFault> {
    let (n, rest) = signed(bytes)?;
    Ok((Value::Int8(n), rest))
}

fn moment(bytes: &[u8]) -> Result<(Value, &[u8]), LineFault> {
    let (n, rest) = signed(bytes)?;
    Ok((Value::Moment(n), rest))
}

fn text_value(alloc: Global, bytes: &[u8]) -> Result<(Value, &[u8]), LineFault> {
    let (text, rest) = text(alloc, bytes)?;
    Ok((Value::Text(text), rest))
}

/// The value behind that type.
fn value_of(alloc: Global, kind: Kind, rest: &[u8]) -> Result<(Value, &[u8]), LineFault> {
    match kind {
        Kind::Null => Ok((Value::Null, rest)),
        Kind::True => Ok((Value::Bool(true), rest)),
        Kind::False => Ok((Value::Bool(false), rest)),
        Kind::Int4 => int4(rest),
        Kind::Int8 => int8(rest),
        Kind::Text => text_value(alloc, rest),
        Kind::Moment => moment(rest),
    }
}

/// A value behind a space.
fn value(alloc: Global, bytes: &[u8]) -> Result<(Value, &[u8]), LineFault> {
    match kind_of(word(b" ", bytes)?) {
        Some((kind, rest)) => value_of(alloc, kind, rest),
        None => Err(LineFault::BadLine),
    }
}

/// So many values, each behind a space.
fn values(alloc: Global, count: u64, bytes: &[u8]) -> Result<(List<Value>, &[u8]), LineFault> {
    let mut cells = List::new(alloc);
    let mut rest = bytes;
    for _ in 0..count {
        let (value, after) = value(alloc, rest)?;
        cells.push(value)?;
        rest = after;
    }
    Ok((cells, rest))
}

/// A row behind a space: how many values it has, and each.
fn row(alloc: Global, bytes: &[u8]) -> Result<(Row, &[u8]), LineFault> {
    let (count, rest) = number(word(b" ", bytes)?)?;
    let (cells, rest) = values(alloc, count, rest)?;
    Ok((Row { cells }, rest))
}

/// Rows: how many, and each.
pub(crate) fn rows(alloc: Global, bytes: &[u8]) -> Result<List<Row>, LineFault> {
    let (count, after) = number(bytes)?;
    let mut rows = List::new(alloc);
    let mut rest = after;
    for _ in 0..count {
        let (row, after) = row(alloc, rest)?;
        rows.push(row)?;
        rest = after;
    }
    Ok(rows)
}
