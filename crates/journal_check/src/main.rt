//! A checker of journals: `journal_check JOURNAL` says whether the events that
//! `pool play .. --journal` wrote are a schedule of the replicated world.
#![tactic(auto)]

mod asking;
mod fault;
mod header;
mod lines;
mod reading;
mod status;

use crate::asking::check_journal;
use crate::status::Status;
use pool_base::{NoMemory, SystemFiles, WriterSink};
use std::env;
use std::io::{self, BufWriter, Write};
use std::process::ExitCode;

/// How many bytes are written at once.
const BUFFER: usize = 4096;

fn main(rt: HostRuntime) -> io::Result<ExitCode> {
    let code = match run_args(&rt) {
        Ok(code) => code,
        Err(NoMemory) => Status::NoMemory.code(),
    };
    Ok(ExitCode::from(code))
}

/// The words that the program is called with. No command has a word that is no text, so with such a
/// word among them there are none.
fn args_of(rt: &HostRuntime) -> Result<Vec<String>, NoMemory> {
    let mut args = Vec::new(rt.alloc());
    match env::args(rt) {
        Ok(all) => {
            for arg in all.skip(1) {
                args.push(arg)?;
            }
        }
        Err(fault) if fault.kind() == io::ErrorKind::OutOfMemory => return Err(NoMemory),
        Err(_) => {}
    }
    Ok(args)
}

/// Checks the journal that the program is called with, and writes to a buffer.
fn run_buffered<W: Write>(rt: &HostRuntime, buffer: &mut W) -> Result<Status, NoMemory> {
    let args = args_of(rt)?;
    let mut words = Vec::new(rt.alloc());
    for arg in &args {
        words.push(arg.as_str())?;
    }
    let mut files = SystemFiles::new(rt.clone()?);
    let mut out = WriterSink::new(buffer);
    check_journal(rt.alloc(), words.as_slice(), &mut files, &mut out)
}

/// Checks the journal, and then writes what is left in the buffer. Where that cannot be written,
/// the output has failed.
fn run_args(rt: &HostRuntime) -> Result<u8, NoMemory> {
    let Ok(mut buffer) = BufWriter::with_capacity(rt.alloc(), BUFFER, io::writer(rt)) else {
        return Err(NoMemory);
    };
    let status = run_buffered(rt, &mut buffer)?;
    match buffer.flush() {
        Ok(()) => Ok(status.code()),
        Err(_) => Ok(Status::SinkFailed.code()),
    }
}
