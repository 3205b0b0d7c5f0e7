//! What an operator is told on standard error where a command ends before it begins: which file
//! could not be read and why, and all faults of a configuration.
ghost use Rattle.std.specs.Prelude.{◌≤◌, IfOk, IfSome, length};

use pool_advice::{Wanted, line_faults, missing_names, wanted_of};
use pool_base::{List, NoMemory, ReadFault, SystemFiles, read_whole};
use pool_command::{Command, read_words};
use pool_run::Status;
use schema::{SchemaFault, read_schema};
use std::fs::File;
use std::io;
use std::os::unix::fs::FileExt;

/// The longest configuration and the longest schema, in bytes.
const CONFIG_LIMIT: usize = 65_536;

const SCHEMA_LIMIT: usize = 262_144;

/// The files that a command names.
#[derive(Clone, Copy)]
struct Named<'a> {
    config: &'a str,
    schema: &'a str,
    script: Option<&'a str>,
}

fn named_by(command: &Command) -> Named<'_> {
    match command {
        Command::Play {
            config,
            schema,
            script,
            ..
        } => Named {
            config: config.as_str(),
            schema: schema.as_str(),
            script: Some(script.as_str()),
        },
        Command::Generate { config, schema, .. } => Named {
            config: config.as_str(),
            schema: schema.as_str(),
            script: None,
        },
        Command::Serve { config, schema } => Named {
            config: config.as_str(),
            schema: schema.as_str(),
            script: None,
        },
    }
}

/// Why a file cannot be read, if it cannot.
fn fault_of(rt: &HostRuntime, name: &str) -> Option<io::Error> {
    match File::open(rt, name) {
        Err(fault) => Some(fault),
        Ok(file) => file.read_at(&mut [0u8; 1], 0).err(),
    }
}

/// Tells why a file cannot be read, if it cannot.
fn tell_unread(rt: &HostRuntime, name: &str) {
    if let Some(fault) = fault_of(rt, name) {
        drop(eprintln!(rt; "pool: cannot read {name}: {fault}"));
    }
}

/// A file's text, where it has one of at most so many bytes.
fn text_of(rt: &HostRuntime, name: &str, limit: usize) -> Result<Option<List<u8>>, NoMemory>
    ensures { IfOk result (λ found. IfSome found (λ text. length text ≤ limit)) }
{
    let mut files = SystemFiles::new(rt.clone()?);
    match read_whole(rt.alloc(), &mut files, name, limit) {
        Ok(text) => Ok(Some(text)),
        Err(ReadFault::NoMemory) => Err(NoMemory),
        Err(ReadFault::TooLong) => {
            drop(eprintln!(rt; "pool: {name}: more than {limit} bytes"));
            Ok(None)
        }
        Err(ReadFault::Failed) => Ok(None),
    }
}

/// Tells each faulty line of a configuration. Answers whether there is one.
fn tell_lines(rt: &HostRuntime, name: &str, text: &[u8]) -> Result<bool, NoMemory>
    requires { length text.now ≤ 65536 }
{
    let faults = line_faults(rt.alloc(), text)?;
    for fault in faults.as_slice() {
        drop(eprintln!(rt; "pool: {name} {fault}"));
    }
    Ok(!faults.is_empty())
}

/// Tells what is missing of a configuration. Answers whether something is.
fn tell_missing(rt: &HostRuntime, name: &str, text: &[u8]) -> Result<bool, NoMemory> {
    let missing = missing_names(rt.alloc(), text)?;
    for parameter in missing.as_slice() {
        let parameter = parameter.as_str();
        let wanted = wanted_of(parameter.as_bytes()).unwrap_or(Wanted::Words);
        drop(eprintln!(rt; "pool: {name}: {parameter} is missing: must be {wanted}"));
    }
    Ok(!missing.is_empty())
}

/// Tells all faults of a configuration. Answers whether it has one.
fn tell_config(rt: &HostRuntime, name: &str) -> Result<bool, NoMemory> {
    match text_of(rt, name, CONFIG_LIMIT)? {
        None => Ok(true),
        Some(text) => {
            Ok(tell_lines(rt, name, text.as_slice())? || tell_missing(rt, name, text.as_slice())?)
        }
    }
}

/// Tells the fault of a schema, if it has one.
fn tell_schema(rt: &HostRuntime, name: &str) -> Result<(), NoMemory> {
    let Some(text) = text_of(rt, name, SCHEMA_LIMIT)? else {
        return Ok(());
    };
    match read_schema(rt.alloc(), text.as_slice()) {
        Ok(_) => Ok(()),
        Err(SchemaFault::BadLine(line)) => {
            let must = "must be of docs/SCHEMAS.md";
            drop(eprintln!(rt; "pool: {name} line {line}: {must}"));
            Ok(())
        }
        Err(SchemaFault::NoMemory) => Err(NoMemory),
    }
}

/// Tells on standard error what is to be mended, where a command has ended with that status.
pub(crate) fn advise(rt: &HostRuntime, words: &[&str], code: u8) -> Result<(), NoMemory> {
    let Some(command) = read_words(rt.alloc(), words)? else {
        return Ok(());
    };
    let named = named_by(&command);
    if code == Status::FilesFailed.code() {
        tell_unread(rt, named.config);
        tell_unread(rt, named.schema);
        if let Some(script) = named.script {
            tell_unread(rt, script);
        }
    } else if code == Status::Refused.code() && !tell_config(rt, named.config)? {
        tell_schema(rt, named.schema)?;
    }
    Ok(())
}
