//! The words behind the first, read by `clap`.
ghost use Rattle.std.specs.Prelude.{◌≡◌, ◌⊎◌, [], IfOk, IfErr, MatchResult, map, option_map, None, false};
ghost use Rattle.clap.specs.Words.{app_of, rule_of, with_rule, first_of, rows_of, found_of, matches_of, fault_of, kind_of};
ghost use Rattle.pool_command.specs.Clap.{files_app, file_rule, flag_rule, option_rule, play_app, serve_app, play_line, serve_line, given_by, given_of, files_of, is_true};

use clap::error::ErrorKind;
use clap::{Arg, ArgAction, ArgMatches, Command, Error};
use pool_base::NoMemory;
use std::alloc::{AllocError, Global};

/// What stands on a line of words, option by option and place by place.
#[derive(Clone, Copy)]
pub(crate) struct Line<'a> {
    pub(crate) config: Option<&'a str>,
    pub(crate) schema: Option<&'a str>,
    pub(crate) script: Option<&'a str>,
    pub(crate) journal: bool,
    pub(crate) generate: Option<&'a str>,
    pub(crate) size: Option<&'a str>,
}

#[tactic(auto, using(crate::proofs::Parsed::faulty_none, crate::proofs::Parsed::faultless_some))]
/// Reads the words of `play`, of which the first is `play` itself. `None`: `clap` refuses them.
pub(crate) fn read_play<'a>(
    alloc: Global,
    words: &'a [&'a str],
) -> Result<Option<Line<'a>>, NoMemory>
    ensures { IfOk result (λ line. option_map given_by line
        ≡ play_line (map (λ word. word.now) words.entry.now)) }
{
    match parse_play(alloc, words) {
        Ok(matches) => Ok(Some(line_of(&matches))),
        Err(error) => refused(&error),
    }
}

#[tactic(auto, using(crate::proofs::Parsed::faulty_none, crate::proofs::Parsed::faultless_some))]
/// Reads the words of `serve`, of which the first is `serve` itself. `None`: `clap` refuses them.
pub(crate) fn read_serve<'a>(
    alloc: Global,
    words: &'a [&'a str],
) -> Result<Option<Line<'a>>, NoMemory>
    ensures { IfOk result (λ line. option_map given_by line
        ≡ serve_line (map (λ word. word.now) words.entry.now)) }
{
    match parse_serve(alloc, words) {
        Ok(matches) => Ok(Some(line_of_files(&matches))),
        Err(error) => refused(&error),
    }
}

fn parse_play<'a>(alloc: Global, words: &'a [&'a str]) -> Result<ArgMatches<'a>, Error>
    ensures rows { IfOk result (λ m. rows_of (found_of m)
        ≡ matches_of play_app (map (λ word. word.now) words.entry.now)) }
    ensures faultless { IfOk result (λ m.
        fault_of play_app (map (λ word. word.now) words.entry.now) ≡ []) }
    ensures faulty { IfErr result (λ e. (kind_of e ≡ ErrorKind.OutOfMemory)
        ⊎ ¬ (fault_of play_app (map (λ word. word.now) words.entry.now) ≡ [])) }
{
    let command = with_files(alloc, "play")?;
    let command = add(command, Arg::new(alloc, "script"))?;
    let command = add(command, flag(alloc, "journal"))?;
    let command = add(command, option(alloc, "generate"))?;
    let command = add(command, option(alloc, "size"))?;
    command.try_get_matches_from(words)
}

fn parse_serve<'a>(alloc: Global, words: &'a [&'a str]) -> Result<ArgMatches<'a>, Error>
    ensures rows { IfOk result (λ m. rows_of (found_of m)
        ≡ matches_of serve_app (map (λ word. word.now) words.entry.now)) }
    ensures faultless { IfOk result (λ m.
        fault_of serve_app (map (λ word. word.now) words.entry.now) ≡ []) }
    ensures faulty { IfErr result (λ e. (kind_of e ≡ ErrorKind.OutOfMemory)
        ⊎ ¬ (fault_of serve_app (map (λ word. word.now) words.entry.now) ≡ [])) }
{
    let command = with_files(alloc, "serve")?;
    command.try_get_matches_from(words)
}

/// A command without help that wants the two files.
fn with_files<'a>(alloc: Global, name: &'a str) -> Result<Command<'a>, AllocError>
    ensures { IfOk result (λ command. app_of command ≡ files_app name.entry.now) }
{
    let command = Command::new(alloc, name).disable_help_flag(true);
    let command = add(command, file(alloc, "config"))?;
    add(command, file(alloc, "schema"))
}

/// The command with one more argument.
fn add<'a>(command: Command<'a>, arg: Arg<'a>) -> Result<Command<'a>, AllocError>
    requires { arg.global ≡ false }
    ensures { IfOk result (λ made. app_of made
        ≡ with_rule (app_of command.entry) (rule_of arg.entry)) }
{
    command.arg(arg)
}

/// A file that has to be named.
fn file<'a>(alloc: Global, id: &'a str) -> Arg<'a>
    ensures rule { rule_of result ≡ file_rule id.entry.now }
    ensures local { result.global ≡ false }
{
    Arg::new(alloc, id).required(true)
}

/// An option without a value.
fn flag<'a>(alloc: Global, id: &'a str) -> Arg<'a>
    ensures rule { rule_of result ≡ flag_rule id.entry.now }
    ensures local { result.global ≡ false }
{
    Arg::new(alloc, id).long(id).action(ArgAction::SetTrue)
}

/// An option with a value.
fn option<'a>(alloc: Global, id: &'a str) -> Arg<'a>
    ensures rule { rule_of result ≡ option_rule id.entry.now }
    ensures local { result.global ≡ false }
{
    Arg::new(alloc, id).long(id)
}

/// The first value of an argument.
fn value_in<'a>(matches: &ArgMatches<'a>, id: &str) -> Option<&'a str>
    ensures { option_map (λ t. t.now) result ≡ first_of id.now (rows_of (found_of matches.now)) }
{
    matches.get_str(id)
}

fn line_of<'a>(matches: &ArgMatches<'a>) -> Line<'a>
    ensures { given_by result ≡ given_of (rows_of (found_of matches.now)) }
{
    Line {
        config: value_in(matches, "config"),
        schema: value_in(matches, "schema"),
        script: value_in(matches, "script"),
        journal: is_true(value_in(matches, "journal")),
        generate: value_in(matches, "generate"),
        size: value_in(matches, "size"),
    }
}

fn line_of_files<'a>(matches: &ArgMatches<'a>) -> Line<'a>
    ensures { given_by result ≡ files_of (rows_of (found_of matches.now)) }
{
    Line {
        config: value_in(matches, "config"),
        schema: value_in(matches, "schema"),
        script: None,
        journal: false,
        generate: None,
        size: None,
    }
}

/// A flag's value, as `clap` spells it.
fn is_true(value: Option<&str>) -> bool
    ensures { result ≡ is_true (option_map (λ t. t.now) value.entry) }
{
    match value {
        Some(text) => text == "true",
        None => false,
    }
}

/// `clap` refused the words, unless memory ran out.
fn refused<'a>(error: &Error) -> Result<Option<Line<'a>>, NoMemory>
    ensures { IfOk result (λ line. (line ≡ None) × ¬ (kind_of error.now ≡ ErrorKind.OutOfMemory)) }
{
    match error.kind() {
        ErrorKind::OutOfMemory => Err(NoMemory),
        _ => Ok(None),
    }
}
