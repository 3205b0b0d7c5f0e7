//! Values and their two forms: a text, and bytes.
ghost use Rattle.pg_values.specs.Range.{IsInRange};

use case_lines::{Told, bytes_of};
use pg_values::{
    ColType, Value, ValueFault, binary_of, from_binary, from_text, kind_of, oid_of, text_of,
};
use std::alloc::Global;

fn type_of(word: &str) -> Option<ColType> {
    match word {
        "bool" => Some(ColType::Bool),
        "int4" => Some(ColType::Int4),
        "int8" => Some(ColType::Int8),
        "text" => Some(ColType::Text),
        "moment" => Some(ColType::Moment),
        _ => None,
    }
}

fn word_of(kind: ColType) -> &'static str {
    match kind {
        ColType::Bool => "bool",
        ColType::Int4 => "int4",
        ColType::Int8 => "int8",
        ColType::Text => "text",
        ColType::Moment => "moment",
    }
}

fn put_fault(fault: ValueFault, told: &mut Told) {
    match fault {
        ValueFault::Bad(code) => told.put_escaped(code.bytes.as_slice()),
        ValueFault::NoMemory => told.put("no memory"),
    }
}

/// The text form of a value.
fn put_printed(alloc: Global, value: &Value, told: &mut Told)
    requires { IsInRange value.now }
{
    match text_of(alloc, value) {
        Ok(Some(text)) => told.put_escaped(text.as_bytes()),
        Ok(None) => told.put("none"),
        Err(_) => told.put("no memory"),
    }
}

/// The value that was read: a moment by its microseconds, another by its text form.
fn put_read(alloc: Global, value: &Value, told: &mut Told)
    requires { IsInRange value.now }
{
    match value {
        Value::Moment(micros) => told.put_signed(*micros),
        _ => put_printed(alloc, value, told),
    }
}

/// The binary form of a value.
fn put_binary(alloc: Global, value: &Value, told: &mut Told)
    requires { IsInRange value.now }
{
    match binary_of(alloc, value) {
        Ok(Some(bytes)) => told.put_all_hex(bytes.as_slice()),
        Ok(None) => told.put("none"),
        Err(_) => told.put("no memory"),
    }
}

/// What a text is read as, in a type.
fn put_text_read(alloc: Global, kind: ColType, text: &[u8], told: &mut Told) {
    match from_text(alloc, kind, text) {
        Ok(value) => put_read(alloc, &value, told),
        Err(fault) => put_fault(fault, told),
    }
}

/// The binary form of the value that a text is read as.
fn put_text_form(alloc: Global, kind: ColType, text: &[u8], told: &mut Told) {
    match from_text(alloc, kind, text) {
        Ok(value) => put_binary(alloc, &value, told),
        Err(fault) => put_fault(fault, told),
    }
}

/// The text form of the value that bytes are read as.
fn put_bytes_read(alloc: Global, kind: ColType, bytes: &[u8], told: &mut Told) {
    match from_binary(alloc, kind, bytes) {
        Ok(value) => put_printed(alloc, &value, told),
        Err(fault) => put_fault(fault, told),
    }
}

/// `TYPE TEXT`: the value that is read.
pub(crate) fn put_text(alloc: Global, asked: &str, told: &mut Told) {
    let (word, text) = asked.split_once(' ').unwrap_or((asked, ""));
    match (type_of(word), bytes_of(alloc, text)) {
        (Some(kind), Ok(text)) => put_text_read(alloc, kind, text.as_slice(), told),
        _ => put_read(alloc, &Value::Null, told),
    }
}

/// `TYPE TEXT`: the binary form of the value that is read.
pub(crate) fn put_form(alloc: Global, asked: &str, told: &mut Told) {
    let (word, text) = asked.split_once(' ').unwrap_or((asked, ""));
    match (type_of(word), bytes_of(alloc, text)) {
        (Some(kind), Ok(text)) => put_text_form(alloc, kind, text.as_slice(), told),
        _ => put_binary(alloc, &Value::Null, told),
    }
}

/// `TYPE BYTES`: the text form of the value that the bytes are read as.
pub(crate) fn put_bytes(alloc: Global, asked: &str, told: &mut Told) {
    let (word, text) = asked.split_once(' ').unwrap_or((asked, ""));
    match (type_of(word), bytes_of(alloc, text)) {
        (Some(kind), Ok(bytes)) => put_bytes_read(alloc, kind, bytes.as_slice(), told),
        _ => told.put("no such type"),
    }
}

/// The number of a type, or the type of a number.
pub(crate) fn put_type(asked: &str, told: &mut Told) {
    if let Some(kind) = type_of(asked) {
        return told.put_number(u64::from(oid_of(kind)));
    }
    match kind_of(asked.parse::<u32>().unwrap_or(0)) {
        Some(kind) => told.put(word_of(kind)),
        None => told.put("none"),
    }
}
