//! The pool: `pool play CONFIG SCHEMA SCRIPT` plays a script and writes its transcript;
//! `pool serve CONFIG SCHEMA` serves TCP clients before PostgreSQL servers; `pool check CONFIG
//! SCHEMA` tells whether these servers are equal; `pool attach CONFIG N` lets a backend be attached
//! again.
#![tactic(auto)]

mod advice;
mod attach;
mod check;
mod limits;
mod reasons;
mod serving;
mod standing;
mod waiting;
mod words;

use crate::advice::advise;
use crate::attach::attach_by;
use crate::check::check_by;
use crate::limits::seats_of;
use crate::serving::{place_by, serve, warn};
use pool_base::{Files, NoMemory, Sink, SystemFiles, WriterSink};
use pool_run::{Served, Status, ask_to_serve, run_over_stores};
use std::alloc::Global;
use std::env;
use std::io::{self, BufWriter, Write};
use std::net::{TcpListener, TcpStream};
use std::process::ExitCode;
use tcp_server::Host;

/// How many bytes are written at once.
const BUFFER: usize = 65536;

fn main(rt: HostRuntime) -> io::Result<ExitCode> {
    // The compiler asks that the host's types of sockets are named where the host is handed on.
    let _sockets: Option<(TcpListener, TcpStream)> = None;
    let code = match run_args(&rt, rt) {
        Ok(code) => code,
        Err(NoMemory) => Status::NoMemory.code(),
    };
    Ok(ExitCode::from(code))
}

/// The words that the program is called with. No command has a word that is no text, so with such a
/// word among them there are none.
fn args_of(rt: &HostRuntime) -> Result<Vec<String>, NoMemory> {
    let mut args = Vec::new(rt.alloc());
    match env::args(rt) {
        Ok(all) => {
            for arg in all.skip(1) {
                args.push(arg)?;
            }
        }
        Err(fault) if fault.kind() == io::ErrorKind::OutOfMemory => return Err(NoMemory),
        Err(_) => {}
    }
    Ok(args)
}

/// Runs the command of the words, and serves with what the host has. `place` is where the status
/// file of a command that serves is.
fn run<R: Host, F: Files, O: Sink>(
    rt: &HostRuntime,
    host: R,
    alloc: Global,
    words: &[&str],
    place: &str,
    files: &mut F,
    out: &mut O,
) -> Result<u8, NoMemory> {
    match ask_to_serve(alloc, words, files, out) {
        Ok(Some(served)) => begin(rt, host, alloc, words, place, served),
        Ok(None) => run_over_stores(alloc, words, files, out),
        Err(code) => Ok(code),
    }
}

/// Serves what was read, with as many seats as the limit of open files has room for.
fn begin<R: Host>(
    rt: &HostRuntime,
    host: R,
    alloc: Global,
    words: &[&str],
    place: &str,
    served: Served,
) -> Result<u8, NoMemory> {
    warn(rt, words, &served);
    match seats_of(rt, &served.config) {
        Ok(seats) => Ok(serve(rt, host, alloc, place, served, seats)),
        Err(NoMemory) => {
            drop(served);
            Err(NoMemory)
        }
    }
}

/// Runs a command that is no word of an operator about a backend.
fn run_at<R: Host, F: Files, O: Sink>(
    rt: &HostRuntime,
    host: R,
    words: &[&str],
    files: &mut F,
    out: &mut O,
) -> Result<u8, NoMemory> {
    let place = place_by(rt, words)?;
    run(rt, host, rt.alloc(), words, place.as_str(), files, out)
}

/// Runs the command of the words. Standard error has why it ends where it ends before it begins.
fn run_words<R: Host, F: Files, O: Sink>(
    rt: &HostRuntime,
    host: R,
    words: &[&str],
    files: &mut F,
    out: &mut O,
) -> Result<u8, NoMemory> {
    if let Some(code) = attach_by(rt, &host, words, files, out)? {
        return Ok(code);
    }
    if let Some(code) = check_by(rt, &host, words, files, out)? {
        return Ok(code);
    }
    let code = run_at(rt, host, words, files, out)?;
    advise(rt, words, code)?;
    Ok(code)
}

/// Runs the command that the program is called with, and writes to a buffer.
fn run_buffered<R: Host, W: Write>(
    rt: &HostRuntime,
    host: R,
    buffer: &mut W,
) -> Result<u8, NoMemory> {
    let args = args_of(rt)?;
    let mut words = Vec::new(rt.alloc());
    for arg in &args {
        words.push(arg.as_str())?;
    }
    let mut files = SystemFiles::new(rt.clone()?);
    let mut out = WriterSink::new(buffer);
    run_words(rt, host, words.as_slice(), &mut files, &mut out)
}

/// Runs the command, and then writes what is left in the buffer. Where that cannot be written, the
/// output has failed.
fn run_args<R: Host>(rt: &HostRuntime, host: R) -> Result<u8, NoMemory> {
    let Ok(mut buffer) = BufWriter::with_capacity(rt.alloc(), BUFFER, io::writer(rt)) else {
        return Err(NoMemory);
    };
    let code = run_buffered(rt, host, &mut buffer)?;
    match buffer.flush() {
        Ok(()) => Ok(code),
        Err(_) => Ok(Status::SinkFailed.code()),
    }
}
