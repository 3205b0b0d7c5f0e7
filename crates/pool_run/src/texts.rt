//! The texts that a command names, and what is built.
ghost use Rattle.std.specs.Prelude.{◌≡◌, ◌<◌, ◌≤◌, IsTrue, ◌↔◌, IfOk, IfErr, IfSome, IsSome, length, true, string_bytes};
ghost use Rattle.pool_run.specs.Texts.{config_name, schema_name, is_plain, is_play, keeps_journal, IsRead, IsScriptRead};
ghost use Rattle.pool_run.specs.Reading.{IsFault};
ghost use Rattle.pool_run.specs.Ends.{fault_line};

use crate::status::Status;
use pool_base::{Files, List, NoMemory, ReadFault, read_whole};
use pool_command::Command;
use pool_config::{Config, ConfigFault};
use std::alloc::Global;

/// The limits of the texts, in bytes.
const CONFIG_LIMIT: usize = 65_536;

const SCHEMA_LIMIT: usize = 262_144;

const SCRIPT_LIMIT: usize = 4_194_304;

/// Reads the configuration's text.
pub fn read_config<F: Files>(
    alloc: Global,
    command: &Command,
    files: &mut F,
) -> Result<Option<List<u8>>, Status>
    ensures read { IfOk result
        (λ text. IsRead (F.contents files.old (config_name command.now)) 65536 text) }
    ensures kept { F.contents files.new ≡ F.contents files.old }
    ensures later { F.fault_count files.old ≤ F.fault_count files.new }
    ensures fault { IfErr result (IsFault (F.fault_count files.old) (F.fault_count files.new)) }
{
    read_text(alloc, files, config_name(command), CONFIG_LIMIT)
}

/// Reads the schema's text.
pub fn read_schema_text<F: Files>(
    alloc: Global,
    command: &Command,
    files: &mut F,
) -> Result<Option<List<u8>>, Status>
    ensures read { IfOk result
        (λ text. IsRead (F.contents files.old (schema_name command.now)) 262144 text) }
    ensures short { IfOk result (λ text. IfSome text (λ bytes. length bytes ≤ 262144)) }
    ensures kept { F.contents files.new ≡ F.contents files.old }
    ensures later { F.fault_count files.old ≤ F.fault_count files.new }
    ensures fault { IfErr result (IsFault (F.fault_count files.old) (F.fault_count files.new)) }
{
    read_text(alloc, files, schema_name(command), SCHEMA_LIMIT)
}

/// Reads the script, if the command has one.
pub fn read_script_text<F: Files>(
    alloc: Global,
    command: &Command,
    files: &mut F,
) -> Result<Option<List<u8>>, Status>
    ensures read { IfOk result (IsScriptRead (F.contents files.old) command.now) }
    ensures short { IfOk result (λ text. IfSome text (λ bytes. length bytes ≤ 4194304)) }
    ensures fault { IfErr result (IsFault (F.fault_count files.old) (F.fault_count files.new)) }
{
    match command {
        Command::Play { script, .. } => read_text(alloc, files, script.as_str(), SCRIPT_LIMIT),
        Command::Generate { .. } | Command::Serve { .. } => Ok(None),
    }
}

/// Reads a text of at most so many bytes.
fn read_text<F: Files>(
    alloc: Global,
    files: &mut F,
    name: &str,
    limit: usize,
) -> Result<Option<List<u8>>, Status>
    ensures read { IfOk result (λ text. IsRead (F.contents files.old name.now) limit text) }
    ensures kept { F.contents files.new ≡ F.contents files.old }
    ensures later { F.fault_count files.old ≤ F.fault_count files.new }
    ensures fault { IfErr result (IsFault (F.fault_count files.old) (F.fault_count files.new)) }
{
    match read_whole(alloc, files, name, limit) {
        Ok(text) => Ok(Some(text)),
        Err(ReadFault::TooLong) => Ok(None),
        Err(ReadFault::Failed) => Err(Status::FilesFailed),
        Err(ReadFault::NoMemory) => Err(Status::NoMemory),
    }
}

fn config_name(command: &Command) -> &str
    ensures { result.now ≡ config_name command.now }
{
    match command {
        Command::Play { config, .. } => config.as_str(),
        Command::Generate { config, .. } => config.as_str(),
        Command::Serve { config, .. } => config.as_str(),
    }
}

fn schema_name(command: &Command) -> &str
    ensures { result.now ≡ schema_name command.now }
{
    match command {
        Command::Play { schema, .. } => schema.as_str(),
        Command::Generate { schema, .. } => schema.as_str(),
        Command::Serve { schema, .. } => schema.as_str(),
    }
}

/// The line of a configuration's fault.
pub fn fault_line(alloc: Global, fault: &ConfigFault) -> Result<String, NoMemory>
    ensures { IfOk result (λ text. string_bytes text ≡ fault_line fault.now) }
{
    Ok(format!(in alloc; "pool: {fault}\n")?)
}

/// Whether the command and the configuration ask for what is built: a script without its journal,
/// over one to eight backends.
pub fn are_built(command: &Command, config: &Config) -> bool
    ensures { IsTrue result ↔ ((is_plain command.now ≡ true)
        × ((0 < length config.now.nodes) × (length config.now.nodes ≤ 8))) }
{
    is_plain(command) && are_few(config.nodes.len())
}

/// Whether so many backends are built: one to eight.
pub fn are_few(count: usize) -> bool
    ensures { IsTrue result ↔ ((0 < count) × (count ≤ 8)) }
{
    0 < count && count <= 8
}

/// How the command plays a script: with its journal, or without. None: it plays none.
pub fn journal_of(command: &Command) -> Option<bool>
    ensures play { IsSome result ↔ (is_play command.now ≡ true) }
    ensures journal { IfSome result (λ journal. journal ≡ keeps_journal command.now) }
{
    match command {
        Command::Play { journal, .. } => Some(*journal),
        Command::Generate { .. } | Command::Serve { .. } => None,
    }
}

/// Whether the command is to play a script without its journal.
fn is_plain(command: &Command) -> bool
    ensures { result ≡ is_plain command.now }
{
    match command {
        Command::Play { journal, .. } => !*journal,
        Command::Generate { .. } | Command::Serve { .. } => false,
    }
}
