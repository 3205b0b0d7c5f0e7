//! From the words to what a run is to do.
ghost use Rattle.std.specs.Prelude.{◌≡◌, ◌≤◌, IsTrue, IsSome, ◌↔◌, length, map, IfOk, IfSome};
ghost use Rattle.pgproto.specs.Line.{line_of};
ghost use Rattle.pool_config.specs.Configuration.{IsAllowed};
ghost use Rattle.pool_run.specs.Ends.{CommandEnds, ConfigEnds, Ends, RestEnds, SchemaEnds, ScriptStageEnds, TextsEnds};
ghost use Rattle.pool_run.specs.Plan.{FitsOneClient, FitsSessions, IsFew, IsOneClient, IsPlayable, IsSound, IsWay, Leads, LinesEnd, LinesLead};
ghost use Rattle.pool_run.specs.Scripts.{IsReading};
ghost use Rattle.pool_run.specs.Texts.{keeps_journal};
ghost use Rattle.schema.specs.Grammar.{IsWithin};
ghost use Rattle.schema.specs.Allowed.{AreAllowed};
ghost use Rattle.schema.specs.Ranges.{AreInRange};

use crate::drawing::takes_none;
use crate::plan::{Lines, Plan, Stop, Way};
use crate::schemas::read_tables;
use crate::scripts::read_lines;
use crate::status::Status;
use crate::texts::{
    are_built, are_few, journal_of, read_config, read_schema_text, read_script_text,
};
use crate::ways::are_single;
use pgproto::{Script, ScriptLine, lines_of_grammar};
use play::is_session;
use pool_base::{Files, List, NoMemory};
use pool_command::{Command, read_words};
use pool_config::{Config, parse_config};
use schema::Catalogue;
use std::alloc::Global;

/// What the words ask for, once the texts that they name were read.
pub fn ask<F: Files>(alloc: Global, words: &[&str], files: &mut F) -> Result<Plan, Stop>
    ensures ends { Leads result (Ends (map (λ w. w.now) words.now) (F.contents files.old)
        (F.fault_count files.old) (F.fault_count files.new)) }
    ensures sound { IfOk result IsSound }
{
    match read_words(alloc, words) {
        Err(_) => Err(Stop::Unread(Status::NoMemory)),
        Ok(None) => Err(Stop::NoCommand),
        Ok(Some(command)) => ask_command(alloc, &command, files),
    }
}

fn ask_command<F: Files>(alloc: Global, command: &Command, files: &mut F) -> Result<Plan, Stop>
    ensures ends { Leads result (CommandEnds (F.contents files.old) (F.fault_count files.old)
        (F.fault_count files.new) command.now) }
    ensures sound { IfOk result IsSound }
{
    match read_config(alloc, command, files) {
        Err(status) => Err(Stop::Unread(status)),
        Ok(None) => Err(Stop::ConfigTooLong),
        Ok(Some(text)) => ask_config(alloc, command, text.as_slice(), files),
    }
}

/// Goes on with the text of the configuration.
fn ask_config<F: Files>(
    alloc: Global,
    command: &Command,
    text: &[u8],
    files: &mut F,
) -> Result<Plan, Stop>
    requires short { length text.now ≤ 65536 }
    ensures ends { Leads result (ConfigEnds (F.contents files.old) (F.fault_count files.old)
        (F.fault_count files.new) command.now text.now) }
    ensures sound { IfOk result IsSound }
{
    match parse_config(alloc, text) {
        Err(fault) => Err(Stop::Config(fault)),
        Ok(config) => ask_rest(alloc, command, config, files),
    }
}

/// Goes on with the configuration.
fn ask_rest<F: Files>(
    alloc: Global,
    command: &Command,
    config: Config,
    files: &mut F,
) -> Result<Plan, Stop>
    requires configured { IsAllowed config }
    ensures ends { Leads result (RestEnds (F.contents files.old) (F.fault_count files.old)
        (F.fault_count files.new) command.now config) }
    ensures sound { IfOk result IsSound }
{
    match read_schema_text(alloc, command, files) {
        Err(status) => Err(Stop::Unread(status)),
        Ok(schema) => ask_schema(alloc, command, config, &schema, files),
    }
}

/// Goes on with the text of the schema.
#[tactic(auto, using(crate::proofs::Tables::within_of))]
fn ask_schema<F: Files>(
    alloc: Global,
    command: &Command,
    config: Config,
    schema: &Option<List<u8>>,
    files: &mut F,
) -> Result<Plan, Stop>
    requires configured { IsAllowed config }
    requires short { IfSome schema.now (λ text. length text ≤ 262144) }
    ensures ends { Leads result (SchemaEnds (F.contents files.old) (F.fault_count files.old)
        (F.fault_count files.new) command.now config schema.now) }
    ensures sound { IfOk result IsSound }
{
    match read_tables(alloc, schema) {
        Err(stop) => Err(Stop::Schema(stop)),
        Ok(catalogue) => {
            let lines = ask_script(alloc, command, &config, &catalogue, files);
            with_tables(config, catalogue, lines)
        }
    }
}

/// The plan to play lines over backends of these tables.
fn with_tables(
    config: Config,
    catalogue: Catalogue,
    lines: Result<Lines, Stop>,
) -> Result<Plan, Stop>
    requires configured { IsAllowed config }
    requires in_range { AreInRange catalogue }
    requires allowed { AreAllowed catalogue }
    requires playable { IfOk lines IsPlayable }
    requires few { IfOk lines (λ _. IsFew (length config.nodes)) }
    ensures ends { Leads result (LinesEnd config catalogue lines) }
    ensures sound { IfOk result IsSound }
{
    match lines {
        Ok(lines) => Ok(Plan {
            config,
            catalogue,
            lines,
        }),
        Err(stop) => {
            drop(config);
            drop(catalogue);
            Err(stop)
        }
    }
}

/// Goes on with the script that the command names.
fn ask_script<F: Files>(
    alloc: Global,
    command: &Command,
    config: &Config,
    catalogue: &Catalogue,
    files: &mut F,
) -> Result<Lines, Stop>
    requires within { IsWithin catalogue.now }
    ensures ends { LinesLead config.now catalogue.now result (ScriptStageEnds (F.contents files.old)
        (F.fault_count files.old) (F.fault_count files.new) command.now config.now catalogue.now) }
    ensures playable { IfOk result IsPlayable }
    ensures few { IfOk result (λ _. IsFew (length config.now.nodes)) }
{
    match read_script_text(alloc, command, files) {
        Err(status) => Err(Stop::Unread(status)),
        Ok(script) => ask_lines(alloc, command, config, catalogue, &script),
    }
}

/// Goes on with the text of the script.
fn ask_lines(
    alloc: Global,
    command: &Command,
    config: &Config,
    catalogue: &Catalogue,
    script: &Option<List<u8>>,
) -> Result<Lines, Stop>
    requires within { IsWithin catalogue.now }
    requires short { IfSome script.now (λ text. length text ≤ 4194304) }
    ensures ends { LinesLead config.now catalogue.now result (TextsEnds command.now
        config.now catalogue.now script.now) }
    ensures playable { IfOk result IsPlayable }
    ensures few { IfOk result (λ _. IsFew (length config.now.nodes)) }
{
    match read_lines(alloc, command, script) {
        Err(stop) => Err(Stop::Script(stop)),
        Ok(None) => Err(Stop::NotBuilt),
        Ok(Some(lines)) => built_lines(alloc, command, config, catalogue, script, lines),
    }
}

/// The lines and how they are played, if all that was read asks for what is built.
fn built_lines(
    alloc: Global,
    command: &Command,
    config: &Config,
    catalogue: &Catalogue,
    script: &Option<List<u8>>,
    lines: Script,
) -> Result<Lines, Stop>
    requires within { IsWithin catalogue.now }
    requires read { IsReading script.now (map line_of lines) }
    ensures ends { LinesLead config.now catalogue.now result (TextsEnds command.now
        config.now catalogue.now script.now) }
    ensures playable { IfOk result IsPlayable }
    ensures few { IfOk result (λ _. IsFew (length config.now.nodes)) }
{
    match way_of(alloc, command, config, catalogue, lines.as_slice()) {
        Ok(Some(way)) => {
            lines_of_grammar();
            Ok(Lines { script: lines, way })
        }
        Ok(None) => Err(Stop::NotBuilt),
        Err(NoMemory) => Err(Stop::Unread(Status::NoMemory)),
    }
}

/// How lines are played. None: what was read asks for what is not built.
fn way_of(
    alloc: Global,
    command: &Command,
    config: &Config,
    catalogue: &Catalogue,
    lines: &[ScriptLine],
) -> Result<Option<Way>, NoMemory>
    requires within { IsWithin catalogue.now }
    ensures { IfOk result (IsWay command.now config.now catalogue.now (map line_of lines.now)) }
{
    if is_built(alloc, command, config, catalogue, lines)? {
        return Ok(Some(Way::OneClient));
    }
    match sessions_of(command, config) {
        Some(journal) => Ok(Some(Way::Sessions { journal })),
        None => Ok(None),
    }
}

/// Whether all that was read asks for sessions, as they are built: then whether with their journal.
fn sessions_of(command: &Command, config: &Config) -> Option<bool>
    ensures fits { IsSome result ↔ FitsSessions command.now config.now }
    ensures journal { IfSome result (λ journal. journal ≡ keeps_journal command.now) }
{
    if !are_few(config.nodes.len()) {
        return None;
    }
    journal_of(command)
}

/// Whether all that was read asks for one client's single statements, of which none takes a serial
/// number.
fn is_built(
    alloc: Global,
    command: &Command,
    config: &Config,
    catalogue: &Catalogue,
    lines: &[ScriptLine],
) -> Result<bool, NoMemory>
    requires within { IsWithin catalogue.now }
    ensures { IfOk result (λ built. IsTrue built
        ↔ FitsOneClient command.now config.now catalogue.now (map line_of lines.now)) }
{
    if !is_one_client(alloc, command, config, lines) {
        return Ok(false);
    }
    takes_none(alloc, catalogue, lines)
}

/// Whether all that was read asks for one client's single statements.
fn is_one_client(alloc: Global, command: &Command, config: &Config, lines: &[ScriptLine]) -> bool
    ensures { IsTrue result ↔ IsOneClient command.now config.now (map line_of lines.now) }
{
    are_built(command, config) && is_session(alloc, lines) && are_single(lines)
}
