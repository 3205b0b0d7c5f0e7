//! The message that begins a session.
use pg_messages::Pair;
use pool_base::{List, NoMemory};

fn put_text(text: &[u8], onto: &mut List<u8>) -> Result<(), NoMemory> {
    onto.extend_from_slice(text)?;
    onto.push(0)
}

/// The most bytes that the options of a start message may have.
const OPTIONS_LIMIT: usize = 9991;

/// Puts the message that begins a session with these options, as `user` and `database`, behind
/// the bytes. False: they do not fit into it, and nothing was put.
///
/// Shape: `Int32 length`, `Int32 196608`, the options as pairs of strings, a zero byte.
/// Source: PostgreSQL, Frontend/Backend Protocol, "Message Formats", StartupMessage. House rule: a
/// length is at most 10000.
pub fn put_start(options: &[Pair], onto: &mut List<u8>) -> Result<bool, NoMemory> {
    let mut body = List::new(onto.allocator());
    for option in options {
        put_text(option.name.as_slice(), &mut body)?;
        put_text(option.value.as_slice(), &mut body)?;
    }
    if body.len() > OPTIONS_LIMIT {
        return Ok(false);
    }
    let length = body.len() as u32 + 9;
    onto.extend_from_slice(&length.to_be_bytes())?;
    onto.extend_from_slice(&196_608u32.to_be_bytes())?;
    onto.extend_from_slice(body.as_slice())?;
    onto.push(0)?;
    Ok(true)
}
