//! Whole scripts, their lines in the one spelling, and their echoes.
ghost use Rattle.std.specs.Prelude.{map};
ghost use Rattle.std.specs.List.{AllByRecursion};
ghost use Rattle.pgproto.specs.Line.{line_of};
ghost use Rattle.pgproto.specs.Spelling.{IsOfGrammar};

use case_lines::{Told, put_lines};
use pgproto::{ScriptFault, ScriptLine, echo, lines_of_grammar, print_line, read_script};
use pool_base::{NoMemory, Text};
use std::alloc::Global;

fn put_line(line: &Result<Text, NoMemory>, told: &mut Told) {
    match line {
        Ok(line) => told.put_folded(line.as_str()),
        Err(_) => told.put("no memory"),
    }
}

/// The lines as they are printed, or their echoes.
fn put_all(alloc: Global, script: &[ScriptLine], is_echo: bool, told: &mut Told)
    requires { AllByRecursion IsOfGrammar (map line_of script.now) }
{
    let mut rest = script;
    while let [line, after @ ..] = rest {
        let shown = if is_echo {
            echo(alloc, line)
        } else {
            print_line(alloc, line)
        };
        put_line(&shown, told);
        rest = after;
    }
}

fn put_fault(fault: ScriptFault, told: &mut Told) {
    match fault {
        ScriptFault::BadLine(number) => {
            told.put("line ");
            told.put_number(u64::from(number));
        }
        ScriptFault::NoMemory => told.put("no memory"),
    }
}

/// What a text is as a script: its lines, or the one that is bad.
fn put_read(alloc: Global, text: &str, is_echo: bool, told: &mut Told) {
    if text.len() > 65536 {
        return told.put("too long");
    }
    match read_script(alloc, text.as_bytes()) {
        Ok(script) => {
            lines_of_grammar();
            put_all(alloc, script.as_slice(), is_echo, told);
        }
        Err(fault) => put_fault(fault, told),
    }
}

/// The lines of a script in their one spelling.
pub(crate) fn put_script(alloc: Global, asked: &str, told: &mut Told) {
    let mut text = Told::new(alloc);
    put_lines(asked, &mut text);
    put_read(alloc, text.as_str(), false, told);
}

/// The echoes of the lines of a script.
pub(crate) fn put_echoes(alloc: Global, asked: &str, told: &mut Told) {
    let mut text = Told::new(alloc);
    put_lines(asked, &mut text);
    put_read(alloc, text.as_str(), true, told);
}
