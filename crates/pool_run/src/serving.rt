//! From the words of `serve` to what is to be served.
ghost use Rattle.std.specs.Prelude.{◌≡◌, ◌≤◌, ℕ, List as Sequence, [], false, true, length, map, Ok, Err, None, IfOk, IfErr, IfSome};
ghost use Rattle.pool_base.specs.Outside.{Told};
ghost use Rattle.pool_command.specs.declared.command.Command.{Command};
ghost use Rattle.pool_config.specs.Configuration.{IsConfiguration};
ghost use Rattle.pool_run.specs.Ends.{outside, Returns, Ends, CommandEnds, ConfigEnds, RestEnds, SchemaEnds};
ghost use Rattle.pool_run.specs.Plan.{Leads};
ghost use Rattle.pool_run.specs.Schemas.{IsSchemaRead};
ghost use Rattle.pool_run.specs.Serving.{is_serve, NamesNoServe, HasTables, HasConfig, IsServed};

use crate::plan::Stop;
use crate::schemas::read_tables;
use crate::served::Served;
use crate::status::Status;
use crate::telling::tell;
use crate::texts::{read_config, read_schema_text};
use pool_base::{Files, List, Sink};
use pool_command::{Command, read_words};
use pool_config::{Config, parse_config};
use std::alloc::Global;

/// Reads what the words of `serve` name. `Ok(None)`: the words are not those of `serve`, and
/// nothing was read or written. Where nothing can be served, its line goes to `out`, and the error
/// is the status.
pub fn ask_to_serve<F: Files, O: Sink>(
    alloc: Global,
    words: &[&str],
    files: &mut F,
    out: &mut O,
) -> Result<Option<Served>, u8>
    ensures served { IfOk result (λ found. IfSome found (λ served. IsServed
        (map (λ w. w.now) words.now) (F.contents files.old) served)) }

    // Whose words they are not.
    ensures other { result ≡ Ok None → NamesNoServe (map (λ w. w.now) words.now) }
    // Each status comes with its cause, and with what was written, as that of `pool_run` does.
    ensures ends { IfErr result (λ code. Returns (map (λ w. w.now) words.now)
        (F.contents files.old) (F.fault_count files.old) (F.fault_count files.new) code
        (outside (O.fault_count out.old) (O.fault_count out.new) (O.taken out.old)
        (O.taken out.new) [] [])) }
{
    match read_served(alloc, words, files) {
        Ok(found) => Ok(found),
        Err(stop) => Err(tell(alloc, &stop, out).code()),
    }
}

fn read_served<F: Files>(
    alloc: Global,
    words: &[&str],
    files: &mut F,
) -> Result<Option<Served>, Stop>
    ensures served { IfOk result (λ found. IfSome found (λ served. IsServed
        (map (λ w. w.now) words.now) (F.contents files.old) served)) }
    ensures other { result ≡ Ok None → NamesNoServe (map (λ w. w.now) words.now) }
    ensures ends { IfErr result (λ stop. Leads (Err stop) (Ends (map (λ w. w.now) words.now)
        (F.contents files.old) (F.fault_count files.old) (F.fault_count files.new))) }
{
    match read_words(alloc, words) {
        Err(_) => Err(Stop::Unread(Status::NoMemory)),
        Ok(None) => Ok(None),
        Ok(Some(command)) => read_command(alloc, &command, files),
    }
}

/// Whether a command asks to serve.
fn is_serve(command: &Command) -> bool
    ensures { result ≡ is_serve command.now }
{
    match command {
        Command::Serve { .. } => true,
        Command::Play { .. } | Command::Generate { .. } => false,
    }
}

fn read_command<F: Files>(
    alloc: Global,
    command: &Command,
    files: &mut F,
) -> Result<Option<Served>, Stop>
    ensures config { IfOk result (λ found. IfSome found (λ served. HasConfig command.now
        (F.contents files.old) served.config)) }
    ensures tables { IfOk result (λ found. IfSome found (λ served. HasTables command.now
        (F.contents files.old) served.tables)) }
    ensures serves { IfOk result (λ found. IfSome found (λ _. is_serve command.now ≡ true)) }
    ensures other { result ≡ Ok None → is_serve command.now ≡ false }
    ensures ends { IfErr result (λ stop. Leads (Err stop) (CommandEnds (F.contents files.old)
        (F.fault_count files.old) (F.fault_count files.new) command.now)) }
{
    if !is_serve(command) {
        return Ok(None);
    }
    match read_config(alloc, command, files) {
        Err(status) => Err(Stop::Unread(status)),
        Ok(None) => Err(Stop::ConfigTooLong),
        Ok(Some(text)) => match read_by(alloc, command, text.as_slice(), files) {
            Ok(served) => Ok(Some(served)),
            Err(stop) => Err(stop),
        },
    }
}

/// Goes on with the text of the configuration.
fn read_by<F: Files>(
    alloc: Global,
    command: &Command,
    text: &[u8],
    files: &mut F,
) -> Result<Served, Stop>
    requires short { length text.now ≤ 65536 }
    ensures config { IfOk result (λ served. IsConfiguration text.now served.config) }
    ensures tables { IfOk result (λ served. HasTables command.now (F.contents files.old)
        served.tables) }
    ensures ends { IfErr result (λ stop. Leads (Err stop) (ConfigEnds (F.contents files.old)
        (F.fault_count files.old) (F.fault_count files.new) command.now text.now)) }
{
    match parse_config(alloc, text) {
        Err(fault) => Err(Stop::Config(fault)),
        Ok(config) => read_with(alloc, command, config, files),
    }
}

/// Goes on with the configuration.
fn read_with<F: Files>(
    alloc: Global,
    command: &Command,
    config: Config,
    files: &mut F,
) -> Result<Served, Stop>
    ensures config { IfOk result (λ served. served.config ≡ config) }
    ensures tables { IfOk result (λ served. HasTables command.now (F.contents files.old)
        served.tables) }
    ensures ends { IfErr result (λ stop. Leads (Err stop) (RestEnds (F.contents files.old)
        (F.fault_count files.old) (F.fault_count files.new) command.now config)) }
{
    match read_schema_text(alloc, command, files) {
        Err(status) => {
            drop(config);
            Err(Stop::Unread(status))
        }
        Ok(schema) => served_of(alloc, config, &schema),
    }
}

/// Goes on with the text of the schema.
fn served_of(alloc: Global, config: Config, schema: &Option<List<u8>>) -> Result<Served, Stop>
    requires short { IfSome schema.now (λ text. length text ≤ 262144) }
    ensures config { IfOk result (λ served. served.config ≡ config) }
    ensures tables { IfOk result (λ served. IsSchemaRead schema.now served.tables) }
    ensures ends { IfErr result (λ stop. (contents : Sequence ℕ → Told) (before : ℕ)
        (command : Command) → Leads (Err stop) (SchemaEnds contents before before command config
        schema.now)) }
{
    match read_tables(alloc, schema) {
        Err(stop) => {
            drop(config);
            Err(Stop::Schema(stop))
        }
        Ok(tables) => Ok(Served { config, tables }),
    }
}
