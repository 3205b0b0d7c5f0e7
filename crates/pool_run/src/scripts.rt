//! The lines of a script, or why it is refused.
ghost use Rattle.std.specs.Prelude.{◌≡◌, ◌≤◌, ◌+◌, length, map, Result, IfOk, IfSome, string_bytes};
ghost use Rattle.pgproto.specs.Line.{line_of};
ghost use Rattle.pool_run.specs.Scripts.{IsAnswer, bad_line, has_script, lines_in};

use pgproto::{Script, ScriptFault, read_script};
use pool_base::{List, NoMemory};
use pool_command::Command;
use std::alloc::Global;

/// The greatest number of lines.
const MOST_LINES: usize = 20_000;

/// Why a script is refused, or was not read.
#[derive(Clone, Copy, Drop)]
pub enum ScriptStop {
    /// It is above its limit in bytes or in lines.
    TooLong,
    /// This line is the first that is bad.
    BadLine(u32),
    /// Memory was refused.
    NoMemory,
}

/// The lines of the command's script. None: the command has none.
pub fn read_lines(
    alloc: Global,
    command: &Command,
    script: &Option<List<u8>>,
) -> Result<Option<Script>, ScriptStop>
    requires { IfSome script.now (λ text. length text ≤ 4194304) }
    ensures { IsAnswer command.now script.now result }
{
    if !has_script(command) {
        return Ok(None);
    }
    let Some(text) = script else {
        return Err(ScriptStop::TooLong);
    };
    if lines_in(text.as_slice()) > MOST_LINES {
        return Err(ScriptStop::TooLong);
    }
    match read_script(alloc, text.as_slice()) {
        Ok(lines) => Ok(Some(lines)),
        Err(ScriptFault::BadLine(n)) => Err(ScriptStop::BadLine(n)),
        Err(ScriptFault::NoMemory) => Err(ScriptStop::NoMemory),
    }
}

/// Whether the command has a script.
fn has_script(command: &Command) -> bool
    ensures { result ≡ has_script command.now }
{
    match command {
        Command::Play { .. } => true,
        Command::Generate { .. } | Command::Serve { .. } => false,
    }
}

/// The number of lines of a text: each LF ends one, and so does the end of the text.
fn lines_in(text: &[u8]) -> usize
    ensures { result ≡ lines_in text.now }
{
    let mut count = 0;
    let mut rest = text;
    while let [byte, after @ ..] = rest {
        if *byte == b'\n' || after.is_empty() {
            count += 1;
        }
        rest = after;
    }
    count
}

/// The line that names a bad line of the script.
pub fn bad_line(alloc: Global, number: u32) -> Result<String, NoMemory>
    ensures { IfOk result (λ text. string_bytes text ≡ bad_line number) }
{
    Ok(format!(in alloc; "pool: script line {number}: bad line\n")?)
}
