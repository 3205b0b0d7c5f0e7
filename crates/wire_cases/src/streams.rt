//! Messages one behind another, read and written again.
use case_lines::{Told, bytes_of};
use pg_messages::{
    ClientMessage, Read, ServerMessage, fits, read_client, read_server, server_fits, write_client,
    write_server,
};
use pool_base::List;
use std::alloc::Global;

/// Writes a message behind the others; false where it cannot be written.
fn is_put(message: &ClientMessage, onto: &mut List<u8>) -> bool {
    fits(message) && write_client(message, onto).is_ok()
}

/// Writes a message behind the others; false where it cannot be written.
fn is_server_put(message: &ServerMessage, onto: &mut List<u8>) -> bool {
    server_fits(message) && write_server(message, onto).is_ok()
}

/// The length of the message at the front, which is written behind the others; 0 where none is.
fn copied(alloc: Global, bytes: &[u8], onto: &mut List<u8>) -> usize {
    match read_client(alloc, bytes) {
        Ok(Read::Whole { message, length }) if is_put(&message, onto) => length,
        _ => 0,
    }
}

/// The length of the message at the front, which is written behind the others; 0 where none is.
fn server_copied(alloc: Global, bytes: &[u8], onto: &mut List<u8>) -> usize {
    match read_server(alloc, bytes) {
        Ok(Read::Whole { message, length }) if is_server_put(&message, onto) => length,
        _ => 0,
    }
}

/// The types of the messages that bytes are, and whether they are written as the same bytes.
fn put_copied(alloc: Global, is_server: bool, bytes: &[u8], told: &mut Told) {
    let mut onto = List::new(alloc);
    let mut rest = bytes;
    for _ in 0..bytes.len() {
        let length = if is_server {
            server_copied(alloc, rest, &mut onto)
        } else {
            copied(alloc, rest, &mut onto)
        };
        if length == 0 || length > rest.len() {
            told.put("?");
            break;
        }
        told.put_escaped(&rest[..1]);
        rest = &rest[length..];
        if rest.is_empty() {
            break;
        }
    }
    if onto.as_slice() != bytes {
        told.put(" written otherwise");
    }
}

/// `SIDE BYTES`: the types of the messages that a client or a server sends, where they are written
/// as the same bytes.
pub(crate) fn put_stream(alloc: Global, asked: &str, told: &mut Told) {
    let (side, text) = asked.split_once(' ').unwrap_or((asked, ""));
    match bytes_of(alloc, text) {
        Ok(bytes) => put_copied(alloc, side == "server", bytes.as_slice(), told),
        Err(_) => told.put("no memory"),
    }
}
