//! Orders and replies as text.
use case_lines::Told;
use catalogue::{Catalogue, Checked};
use checked_print::print_checked;
use pg_messages::{Read, ServerMessage, read_server};
use pgproto::render;
use pool_base::{Code, SessionId};
use session_orders::OrderBody;
use std::alloc::Global;

/// Puts what stands between two orders or replies.
pub(crate) fn put_next(told: &mut Told) {
    if !told.as_str().is_empty() {
        told.put("; ");
    }
}

fn put_statement(alloc: Global, tables: &Catalogue, checked: &Checked, told: &mut Told) {
    told.put("run \"");
    match print_checked(alloc, tables, checked) {
        Ok(text) => told.put(text.as_str()),
        Err(_) => told.put("no memory"),
    }
    told.put("\"");
}

fn put_refuse(code: Code, name: &str, told: &mut Told) {
    told.put("refuse ");
    told.put_escaped(&code.bytes);
    told.put(" \"");
    told.put(name);
    told.put("\"");
}

fn put_recover(backend: u8, told: &mut Told) {
    told.put("recover ");
    told.put_number(u64::from(backend));
}

/// An order as a journal has it.
pub(crate) fn put_order(alloc: Global, tables: &Catalogue, body: &OrderBody, told: &mut Told) {
    put_next(told);
    match body {
        OrderBody::Statement(checked) => put_statement(alloc, tables, checked.get(), told),
        OrderBody::Begin => told.put("begin"),
        OrderBody::Commit => told.put("commit"),
        OrderBody::Rollback => told.put("rollback"),
        OrderBody::Settle => told.put("settle"),
        OrderBody::ShowNodes => told.put("show-nodes"),
        OrderBody::Recover(backend) => put_recover(*backend, told),
        OrderBody::Refuse { code, name } => put_refuse(*code, name.as_str(), told),
        OrderBody::Leave => told.put("leave"),
    }
}

/// A reply as a transcript has it, without its session.
fn put_reply(alloc: Global, message: &ServerMessage, told: &mut Told) {
    put_next(told);
    let Some(first) = SessionId::from_number(1) else {
        return;
    };
    match render(alloc, first, message) {
        Ok(line) => {
            let line = line.as_str().trim_end();
            told.put(line.strip_prefix("1 <= BE ").unwrap_or(line));
        }
        Err(_) => told.put("no memory"),
    }
}

/// Whether the byte that declines encryption stands in front: a notice has a length behind it.
fn declines(bytes: &[u8]) -> bool {
    match bytes {
        [b'N'] => true,
        [b'N', next, ..] => *next != 0,
        _ => false,
    }
}

/// Puts the reply at the front, and says how long it is; 0 where no whole one is there.
fn put_front(alloc: Global, bytes: &[u8], told: &mut Told) -> usize {
    if declines(bytes) {
        put_next(told);
        told.put("N");
        return 1;
    }
    match read_server(alloc, bytes) {
        Ok(Read::Whole { message, length }) => {
            put_reply(alloc, &message, told);
            length
        }
        _ => 0,
    }
}

/// The replies that bytes are.
pub(crate) fn put_replies(alloc: Global, bytes: &[u8], told: &mut Told) {
    let mut rest = bytes;
    for _ in 0..bytes.len() {
        let length = put_front(alloc, rest, told);
        if length == 0 || length > rest.len() {
            break;
        }
        rest = &rest[length..];
    }
    if !rest.is_empty() {
        put_next(told);
        told.put("no reply");
    }
}
