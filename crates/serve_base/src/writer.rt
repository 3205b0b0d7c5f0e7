//! The writer: a status to its one text.
ghost use Rattle.std.specs.Prelude.{◌≡◌, ◌<◌, ◌++◌, ◌∷◌, [], Ok, IfOk, OnOk, length, option_map, true};
ghost use Rattle.serve_base.specs.Status.{are_plain, has_plain_state, is_plain, lacks, line_text, lines_from, state_text, status_text};
ghost use Rattle.serve_base.specs.Reader.{status_in};

use crate::status::{Down, Standing};
use pool_base::{List, NoMemory};
use std::alloc::Global;

/// Ports are below. Of a number behind a reference a contract knows no range.
const PORTS: u32 = 65536;

/// Whether no such byte is among them.
fn lacks(byte: u8, bytes: &[u8]) -> bool
    ensures { result ≡ lacks byte bytes.now }
{
    let mut left = bytes;
    while let [first, rest @ ..] = left {
        if *first == byte {
            return false;
        }
        left = rest;
    }
    true
}

/// Whether nothing in the state's words would end it.
fn has_plain_state(down: Option<&Down>) -> bool
    ensures { result ≡ has_plain_state (option_map (λ d. d.now) down.entry) }
{
    match down {
        None => true,
        Some(down) => {
            let (since, why) = (down.since.as_slice(), down.why.as_slice());
            (lacks(b' ', since) && lacks(b'\n', since)) && lacks(b'\n', why)
        }
    }
}

/// Whether that can be written: no quote is in the host, no blank in the moment, and no line feed.
pub fn is_plain(standing: &Standing) -> bool
    ensures { result ≡ is_plain standing.now }
{
    let (port, host) = (u32::from(standing.port), standing.host.as_slice());
    port < PORTS
        && (lacks(b'\'', host) && lacks(b'\n', host) && has_plain_state(standing.down.as_ref()))
}

/// Whether each of them can be written.
pub fn are_plain(all: &[Standing]) -> bool
    ensures { result ≡ are_plain all.now }
{
    let mut left = all;
    while let [first, rest @ ..] = left {
        if !is_plain(first) {
            return false;
        }
        left = rest;
    }
    true
}

/// The text that `read_status` reads back as the same status.
///
/// Shape: docs/SERVE.md, "The status file".
pub fn write_status(alloc: Global, all: &[Standing]) -> Result<List<u8>, NoMemory>
    requires plain { are_plain all.now ≡ true }
    requires few { length all.now < 4294967295 }
    ensures written { IfOk result (λ text. text ≡ status_text all.now) }
    ensures read_back { IfOk result (λ text. status_in text ≡ Ok all.now) }
{
    written(alloc, all)
}

/// The one text of a status.
fn written(alloc: Global, all: &[Standing]) -> Result<List<u8>, NoMemory>
    requires { length all.now < 4294967295 }
    ensures { IfOk result (λ text. text ≡ status_text all.now) }
{
    let mut text = List::from_slice(alloc, b"pool status 1\n")?;
    let mut number: u32 = 0;
    let mut left = all;
    while let [first, rest @ ..] = left {
        write_line(alloc, &mut text, number, first)?;
        number += 1;
        left = rest;
    }
    let last = format!(in alloc; "end {number}\n")?;
    text.extend_from_slice(last.as_bytes())?;
    Ok(text)
}

/// The line of the backend with that number, and its line feed.
fn write_line(
    alloc: Global,
    text: &mut List<u8>,
    number: u32,
    standing: &Standing,
) -> Result<(), NoMemory>
    ensures { OnOk result (text.new ≡ text.old ++ (line_text number standing.now ++ 10 ∷ [])) }
{
    let start = format!(in alloc; "backend {number} '")?;
    let port = standing.port;
    let port = format!(in alloc; "' {port} ")?;
    text.extend_from_slice(start.as_bytes())?;
    text.extend_from_slice(standing.host.as_slice())?;
    text.extend_from_slice(port.as_bytes())?;
    write_state(text, standing.down.as_ref())?;
    text.extend_from_slice(b"\n")
}

fn write_state(text: &mut List<u8>, down: Option<&Down>) -> Result<(), NoMemory>
    ensures { OnOk result (text.new
        ≡ text.old ++ state_text (option_map (λ d. d.now) down.entry)) }
{
    match down {
        None => text.extend_from_slice(b"up"),
        Some(down) => {
            text.extend_from_slice(b"down ")?;
            text.extend_from_slice(down.since.as_slice())?;
            text.extend_from_slice(b" ")?;
            text.extend_from_slice(down.why.as_slice())
        }
    }
}
