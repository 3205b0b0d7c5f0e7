//! From words to a command.
ghost use Rattle.std.specs.Prelude.{◌≡◌, IfOk, map, option_map, Some};
ghost use Rattle.pool_command.specs.Clap.{given_by, play_line, serve_line};
ghost use Rattle.pool_command.specs.Command.{command_of, command_by, play_of, serve_of, generated, number_of, size_of, is_numeral};
ghost use Rattle.std.specs.Str.{all_ascii_digits};

use crate::command::Command;
use crate::line::{Line, read_play, read_serve};
use pool_base::{NoMemory, Text};
use std::alloc::Global;

/// The command that the words after the program's name are, if they are one.
///
/// Shape: `play CONFIG SCHEMA SCRIPT [--journal]`, `play CONFIG SCHEMA --generate N --size K`,
/// `serve CONFIG SCHEMA`; options stand anywhere behind the first word, and `--` ends them.
/// Units: N is 0 to 4294967295 in one to ten digits, K 1 to 20000 in one to five.
pub fn read_words(alloc: Global, words: &[&str]) -> Result<Option<Command>, NoMemory>
    ensures { IfOk result (λ command. command ≡ command_of (map (λ word. word.now) words.now)) }
{
    match words {
        [first, ..] => read_by(alloc, first, words),
        [] => Ok(None),
    }
}

/// The command that words are that begin so.
fn read_by(alloc: Global, first: &str, words: &[&str]) -> Result<Option<Command>, NoMemory>
    ensures { IfOk result (λ command. command
        ≡ command_by first.now (map (λ word. word.now) words.now)) }
{
    if first == "play" {
        read_as_play(alloc, words)
    } else if first == "serve" {
        read_as_serve(alloc, words)
    } else {
        Ok(None)
    }
}

/// The command of words that begin with `play`.
fn read_as_play(alloc: Global, words: &[&str]) -> Result<Option<Command>, NoMemory>
    ensures { IfOk result (λ command. command
        ≡ play_of (play_line (map (λ word. word.now) words.now))) }
{
    match read_play(alloc, words)? {
        Some(line) => play(alloc, line),
        None => Ok(None),
    }
}

/// The command of words that begin with `serve`.
fn read_as_serve(alloc: Global, words: &[&str]) -> Result<Option<Command>, NoMemory>
    ensures { IfOk result (λ command. command
        ≡ serve_of (serve_line (map (λ word. word.now) words.now))) }
{
    match read_serve(alloc, words)? {
        Some(line) => serve(alloc, line),
        None => Ok(None),
    }
}

/// What a line of `play` asks for.
fn play(alloc: Global, line: Line) -> Result<Option<Command>, NoMemory>
    ensures { IfOk result (λ command. command ≡ play_of (Some (given_by line.entry))) }
{
    let (Some(config), Some(schema)) = (line.config, line.schema) else {
        return Ok(None);
    };
    match (line.script, line.generate, line.size) {
        (Some(script), None, None) => Ok(Some(Command::Play {
            config: Text::from_str(alloc, config)?,
            schema: Text::from_str(alloc, schema)?,
            script: Text::from_str(alloc, script)?,
            journal: line.journal,
        })),
        (None, Some(number), Some(size)) => {
            if line.journal {
                return Ok(None);
            }
            generate(alloc, config, schema, number, size)
        }
        _ => Ok(None),
    }
}

/// What a line with `--generate` and `--size` asks for.
fn generate(
    alloc: Global,
    config: &str,
    schema: &str,
    number: &str,
    size: &str,
) -> Result<Option<Command>, NoMemory>
    ensures { IfOk result (λ command. command
        ≡ generated config.now schema.now (number_of number.now) (size_of size.now)) }
{
    match (read_number(number), read_size(size)) {
        (Some(number), Some(size)) => Ok(Some(Command::Generate {
            config: Text::from_str(alloc, config)?,
            schema: Text::from_str(alloc, schema)?,
            number,
            size,
        })),
        _ => Ok(None),
    }
}

/// What a line of `serve` asks for.
fn serve(alloc: Global, line: Line) -> Result<Option<Command>, NoMemory>
    ensures { IfOk result (λ command. command ≡ serve_of (Some (given_by line.entry))) }
{
    let (Some(config), Some(schema)) = (line.config, line.schema) else {
        return Ok(None);
    };
    Ok(Some(Command::Serve {
        config: Text::from_str(alloc, config)?,
        schema: Text::from_str(alloc, schema)?,
    }))
}

/// N of `--generate`.
fn read_number(word: &str) -> Option<u32>
    ensures { result ≡ number_of word.now }
{
    if !is_numeral(10, word) {
        return None;
    }
    word.parse::<u32>().ok()
}

/// K of `--size`.
fn read_size(word: &str) -> Option<u32>
    ensures { result ≡ size_of word.now }
{
    if !is_numeral(5, word) {
        return None;
    }
    match word.parse::<u32>() {
        Ok(size) => {
            if 1 <= size && size <= 20000 {
                Some(size)
            } else {
                None
            }
        }
        Err(_) => None,
    }
}

/// One decimal digit or more, up to `most`.
fn is_numeral(most: usize, word: &str) -> bool
    ensures { result ≡ is_numeral most word.now }
{
    !word.is_empty() && word.len() <= most && are_digits(word.as_bytes())
}

/// Decimal digits alone.
fn are_digits(bytes: &[u8]) -> bool
    ensures { result ≡ all_ascii_digits bytes.now }
{
    let mut left = bytes;
    while let [byte, rest @ ..] = left {
        if !byte.is_ascii_digit() {
            return false;
        }
        left = rest;
    }
    true
}
