//! Bytes that clients and servers send, and what stands at their front.
use crate::starts::put_start;
use case_lines::{Told, bytes_of};
use pg_messages::{
    ClientMessage, Read, ServerMessage, read_client, read_login, read_server, read_start,
};
use pgproto::render;
use pool_base::{List, NoMemory, SessionId};
use std::alloc::Global;

/// What an answer says, without its message.
pub(crate) fn put_outcome<T: Drop>(answer: &Result<Read<T>, NoMemory>, told: &mut Told) {
    match answer {
        Ok(Read::Whole { length, .. }) => put_sized("whole ", *length, told),
        Ok(Read::More) => told.put("more"),
        Ok(Read::Bad { place }) => put_sized("bad ", *place, told),
        Ok(Read::TooLong { stated }) => {
            told.put("too long ");
            told.put_number(u64::from(*stated));
        }
        Err(NoMemory) => told.put("no memory"),
    }
}

fn put_sized(word: &str, size: usize, told: &mut Told) {
    told.put(word);
    told.put_shown(&size);
}

fn put_formats(formats: &[u16], told: &mut Told) {
    told.put("; formats");
    for format in formats {
        told.put(" ");
        told.put_number(u64::from(*format));
    }
}

/// The bytes of values in hexadecimal digits.
fn put_values(values: &[Option<List<u8>>], told: &mut Told) {
    told.put("; values");
    for value in values {
        told.put(" ");
        match value {
            Some(bytes) => told.put_all_hex(bytes.as_slice()),
            None => told.put("null"),
        }
    }
}

fn put_client(alloc: Global, bytes: &[u8], told: &mut Told) {
    let answer = read_client(alloc, bytes);
    put_outcome(&answer, told);
    if let Ok(
        Read::Whole {
            message: ClientMessage::Bind {
                formats,
                values,
                ..
            },
            ..
        },
    ) = &answer
    {
        put_formats(formats.as_slice(), told);
        put_values(values.as_slice(), told);
    }
}

/// A message as a transcript of a session shows it.
fn put_shown(alloc: Global, message: &ServerMessage, told: &mut Told) {
    if let Some(first) = SessionId::from_number(1) {
        match render(alloc, first, message) {
            Ok(line) => told.put(line.as_str().trim_end()),
            Err(_) => told.put("no memory"),
        }
    }
}

/// What a client says while it shows its password, with its body.
fn put_login(alloc: Global, bytes: &[u8], told: &mut Told) {
    let answer = read_login(alloc, bytes);
    put_outcome(&answer, told);
    if let Ok(Read::Whole { message, .. }) = &answer {
        told.put("; body ");
        told.put_all_hex(message.as_slice());
    }
}

fn put_server(alloc: Global, bytes: &[u8], told: &mut Told) {
    put_outcome(&read_server(alloc, bytes), told);
}

fn put_line(alloc: Global, bytes: &[u8], told: &mut Told) {
    match read_server(alloc, bytes) {
        Ok(Read::Whole { message, .. }) => put_shown(alloc, &message, told),
        answer => put_outcome(&answer, told),
    }
}

/// `SIDE BYTES`: what stands at the front of what a client, a server, a client that shows its
/// password (`login`) or one that connects sends; `line`: what a transcript has of a server's
/// message.
pub(crate) fn put_message(alloc: Global, asked: &str, told: &mut Told) {
    let (side, text) = asked.split_once(' ').unwrap_or((asked, ""));
    match (side, bytes_of(alloc, text)) {
        ("client", Ok(bytes)) => put_client(alloc, bytes.as_slice(), told),
        ("server", Ok(bytes)) => put_server(alloc, bytes.as_slice(), told),
        ("login", Ok(bytes)) => put_login(alloc, bytes.as_slice(), told),
        ("start", Ok(bytes)) => put_start(alloc, bytes.as_slice(), told),
        ("line", Ok(bytes)) => put_line(alloc, bytes.as_slice(), told),
        _ => told.put("no such side"),
    }
}
