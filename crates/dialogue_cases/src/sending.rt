//! What a line of a dialogue sends, as bytes.
use case_lines::{Told, bytes_of, put_lines};
use pg_messages::{fits, write_client};
use pgproto::{ScriptLine, message_of, read_script};
use pool_base::List;
use std::alloc::Global;

/// The most bytes that a line of a dialogue has.
const MOST_BYTES: usize = 2_000_000;

/// The start message of the player.
const START: &str = "start 3.0 user=pool database=pool";

fn put_bytes(onto: &mut List<u8>, bytes: &[u8]) {
    let _ = onto.extend_from_slice(bytes);
}

/// An option, as `name=value`.
fn put_option(word: &str, onto: &mut List<u8>) {
    let (name, value) = word.split_once('=').unwrap_or((word, ""));
    put_bytes(onto, name.as_bytes());
    put_bytes(onto, &[0]);
    put_bytes(onto, value.as_bytes());
    put_bytes(onto, &[0]);
}

/// The version, as `3.0`.
fn put_version(word: &str, onto: &mut List<u8>) {
    let (major, minor) = word.split_once('.').unwrap_or((word, "0"));
    put_bytes(onto, &major.parse::<u16>().unwrap_or(0).to_be_bytes());
    put_bytes(onto, &minor.parse::<u16>().unwrap_or(0).to_be_bytes());
}

/// A start message: the version, and options with a space before each.
fn put_start(alloc: Global, line: &str, onto: &mut List<u8>) {
    let mut body = List::new(alloc);
    let mut words = line.split(' ').skip(1);
    put_version(words.next().unwrap_or(""), &mut body);
    for word in words {
        put_option(word, &mut body);
    }
    put_bytes(&mut body, &[0]);
    let length = u32::try_from(body.len()).unwrap_or(0).saturating_add(4);
    put_bytes(onto, &length.to_be_bytes());
    put_bytes(onto, body.as_slice());
}

/// The bytes of a line of a script.
fn put_script_line(alloc: Global, line: &ScriptLine, onto: &mut List<u8>) {
    if let ScriptLine::Raw(_, bytes) = line {
        return put_bytes(onto, bytes.as_slice());
    }
    if let Ok(Some(message)) = message_of(alloc, line)
        && fits(&message)
    {
        let _ = write_client(&message, onto);
    }
}

/// The bytes of the lines of a script, with `¶` between them.
fn put_script(alloc: Global, text: &str, onto: &mut List<u8>, told: &mut Told) {
    let mut script = Told::new(alloc);
    put_lines(text, &mut script);
    script.put("\n");
    let script = script.as_str();
    if script.len() > MOST_BYTES {
        return told.put("too long");
    }
    match read_script(alloc, script.as_bytes()) {
        Ok(lines) => {
            for line in lines.as_slice() {
                put_script_line(alloc, line, onto);
            }
        }
        Err(_) => told.put("no such line"),
    }
}

/// Bytes as they are spelled.
fn put_spelled(alloc: Global, text: &str, onto: &mut List<u8>) {
    if let Ok(bytes) = bytes_of(alloc, text) {
        put_bytes(onto, bytes.as_slice());
    }
}

/// Puts the bytes that a line of a dialogue sends; where it is none, that is told.
pub(crate) fn put_sent(alloc: Global, line: &str, onto: &mut List<u8>, told: &mut Told) {
    let (word, rest) = line.split_once(' ').unwrap_or((line, ""));
    match word {
        "session" => put_start(alloc, START, onto),
        "start" => put_start(alloc, line, onto),
        "ssl" => put_bytes(onto, &[0, 0, 0, 8, 4, 210, 22, 47]),
        "gss" => put_bytes(onto, &[0, 0, 0, 8, 4, 210, 22, 48]),
        "cancel" => put_spelled(
            alloc,
            "\\x00\\x00\\x00\\x10\\x04\\xd2\\x16\\x2e\\x00\\x00\\x00\\x01\\x00\\x00\\x00\\x00",
            onto,
        ),
        "bytes" => put_spelled(alloc, rest, onto),
        "connect" | "end" => {}
        _ => put_script(alloc, line, onto, told),
    }
}
