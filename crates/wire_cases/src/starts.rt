//! The first message of a connection.
use crate::messages::put_outcome;
use case_lines::Told;
use pg_messages::{Pair, Read, StartMessage, read_start};
use std::alloc::Global;

/// Options, each as `name=value` behind a space.
fn put_options(options: &[Pair], told: &mut Told) {
    for option in options {
        told.put(" ");
        told.put_escaped(option.name.as_slice());
        told.put("=");
        told.put_escaped(option.value.as_slice());
    }
}

fn put_version(major: u16, minor: u16, told: &mut Told) {
    told.put("; ");
    told.put_number(u64::from(major));
    told.put(".");
    told.put_number(u64::from(minor));
}

fn put_cancel(process: i32, secret: i32, told: &mut Told) {
    told.put("; cancel ");
    told.put_signed(i64::from(process));
    told.put(" ");
    told.put_signed(i64::from(secret));
}

fn put_found(message: &StartMessage, told: &mut Told) {
    match message {
        StartMessage::Start {
            major,
            minor,
            options,
        } => {
            put_version(*major, *minor, told);
            put_options(options.as_slice(), told);
        }
        StartMessage::Ssl => told.put("; tls"),
        StartMessage::Gss => told.put("; gss"),
        StartMessage::Cancel { process, secret } => put_cancel(*process, *secret, told),
    }
}

/// What stands at the front of what a client sends first.
pub(crate) fn put_start(alloc: Global, bytes: &[u8], told: &mut Told) {
    let answer = read_start(alloc, bytes);
    put_outcome(&answer, told);
    if let Ok(Read::Whole { message, .. }) = &answer {
        put_found(message, told);
    }
}
