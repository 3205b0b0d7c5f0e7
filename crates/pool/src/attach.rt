//! The command `attach CONFIG N`: an operator's word that a backend may be attached again.

use crate::serving::refuse;
use pool_base::{BackendId, Files, NoMemory, ReadFault, Sink, read_whole, write_all};
use pool_config::{Config, ConfigFault, parse_config};
use pool_run::Status;
use serve_base::{Keeper, Noted, OpenFault, place_of};
use tcp_server::Host;

/// The limit of a configuration, in bytes.
const CONFIG_LIMIT: usize = 65_536;

/// The backend of one digit.
fn backend_of(word: &str) -> Option<BackendId> {
    match word.as_bytes() {
        [digit] if b'0' <= *digit && *digit <= b'7' => BackendId::from_number(*digit - b'0'),
        _ => None,
    }
}

/// Runs the command, where the words are `attach CONFIG N`. Answers the status.
pub(crate) fn attach_by<R: Host, F: Files, O: Sink>(
    rt: &HostRuntime,
    host: &R,
    words: &[&str],
    files: &mut F,
    out: &mut O,
) -> Result<Option<u8>, NoMemory> {
    let [command, config, number] = words else {
        return Ok(None);
    };
    if *command != "attach" {
        return Ok(None);
    }
    match backend_of(number) {
        Some(b) => Ok(Some(attach(rt, host, config, b, files, out)?)),
        None => Ok(None),
    }
}

/// Reads the configuration, and goes on with it.
fn attach<R: Host, F: Files, O: Sink>(
    rt: &HostRuntime,
    host: &R,
    name: &str,
    b: BackendId,
    files: &mut F,
    out: &mut O,
) -> Result<u8, NoMemory> {
    let alloc = rt.alloc();
    let text = match read_whole(alloc, files, name, CONFIG_LIMIT) {
        Ok(text) => text,
        Err(ReadFault::TooLong) => {
            return Ok(say(out, "pool: configuration is too long\n", Status::Refused));
        }
        Err(ReadFault::Failed) => return Ok(Status::FilesFailed.code()),
        Err(ReadFault::NoMemory) => return Err(NoMemory),
    };
    match parse_config(alloc, text.as_slice()) {
        Ok(config) => mark(rt, host, name, &config, b, out),
        Err(ConfigFault::NoMemory) => Err(NoMemory),
        Err(fault) => {
            let line = format!(in alloc; "pool: {fault}\n")?;
            Ok(say(out, line.as_str(), Status::Refused))
        }
    }
}

/// Marks the backend in the status file as up. No pool may hold the file.
fn mark<R: Host, O: Sink>(
    rt: &HostRuntime,
    host: &R,
    name: &str,
    config: &Config,
    b: BackendId,
    out: &mut O,
) -> Result<u8, NoMemory> {
    let (alloc, number) = (rt.alloc(), b.number);
    let Some(node) = config.nodes.get(usize::from(number)) else {
        drop(eprintln!(rt; "pool: the configuration has no backend {number}"));
        return Ok(Status::NoCommand.code());
    };
    let place = place_of(rt, name)?;
    let keeper = match Keeper::open_again(*rt, alloc, place.as_str(), config.nodes.as_slice()) {
        Ok(keeper) => keeper,
        Err(fault) => return Ok(refuse(host, alloc, place.as_str(), &fault)),
    };
    if let Noted::Failed(fault) = keeper.note_up(host, b) {
        let fault = OpenFault::NotWritten(fault);
        return Ok(refuse(host, alloc, place.as_str(), &fault));
    }
    let (host, port) = (node.host.as_str(), node.port);
    let line = format!(in alloc;
        "pool: backend {number} ({host}, port {port}) is attached at the next start\n"
    )?;
    Ok(say(out, line.as_str(), Status::Done))
}

/// Writes a line. Where it cannot be written, the output has failed.
fn say<O: Sink>(out: &mut O, line: &str, status: Status) -> u8 {
    match write_all(out, line.as_bytes()) {
        Ok(()) => status.code(),
        Err(_) => Status::SinkFailed.code(),
    }
}
