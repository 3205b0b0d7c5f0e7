//! The one spelling of a line, and its echo in a transcript.
ghost use Rattle.std.specs.Prelude.{◌≡◌, ◌++◌, ◌∷◌, OnOk, IfOk, Some, [], List, option_map, codes};
ghost use Rattle.std.specs.Fmt.{decimal};
ghost use Rattle.pgproto.specs.Words.{quoted};
ghost use Rattle.pgproto.specs.Line.{execute, line_of, parse};
ghost use Rattle.pgproto.specs.Spelling.{IsOfGrammar, echo_front, echoed, script_front, sender, spelled, words_of};

use crate::line::ScriptLine;
use crate::pieces::{push_hex, push_number, push_signed, text};
use crate::spelling::{push_formats, push_kinds, push_mark, push_string, push_target, push_values};
use pool_base::{List, NoMemory, SessionId, Text};
use std::alloc::Global;

/// Most echoes are no longer than this. There is room for them at once.
const ECHO_SIZE: usize = 128;

/// The one spelling of a line of the grammar, with its LF.
///
/// Shape: one space between the parts, plain decimal numbers, hexadecimal digits in lower case.
pub fn print_line(alloc: Global, line: &ScriptLine) -> Result<Text, NoMemory>
    requires { IsOfGrammar (line_of line.now) }
    ensures { IfOk result (λ text. text ≡ spelled (line_of line.now) ++ 10 ∷ []) }
{
    let mut bytes = List::new(alloc);
    push_script_front(alloc, sender(line), &mut bytes)?;
    push_words(alloc, line, &mut bytes)?;
    bytes.push(b'\n')?;
    Ok(text(bytes))
}

/// The echo of a line of the grammar in a transcript, with its LF.
///
/// Shape: `n FE=> ` and what the client of session n sends, as `1 FE=> 'Q' "BEGIN"`; `== ` and the
/// line
/// where it sends nothing, as `== lose 1`.
pub fn echo(alloc: Global, line: &ScriptLine) -> Result<Text, NoMemory>
    requires { IsOfGrammar (line_of line.now) }
    ensures { IfOk result (λ text. text ≡ echoed (line_of line.now) ++ 10 ∷ []) }
{
    let mut bytes = List::new(alloc);
    bytes.reserve(ECHO_SIZE)?;
    push_echo_front(alloc, sender(line), &mut bytes)?;
    push_words(alloc, line, &mut bytes)?;
    bytes.push(b'\n')?;
    Ok(text(bytes))
}

/// The session whose client sends what the line says, if one does.
fn sender(line: &ScriptLine) -> Option<SessionId>
    ensures { option_map (λ s. s.number) result ≡ sender (line_of line.now) }
{
    match line {
        ScriptLine::Raw(s, _)
        | ScriptLine::Query(s, _)
        | ScriptLine::Parse { s, .. }
        | ScriptLine::Describe { s, .. }
        | ScriptLine::Bind { s, .. }
        | ScriptLine::Execute { s, .. }
        | ScriptLine::Close { s, .. }
        | ScriptLine::Flush(s)
        | ScriptLine::Sync(s)
        | ScriptLine::Terminate(s) => Some(*s),
        ScriptLine::Session(_)
        | ScriptLine::Lose(_)
        | ScriptLine::Cut(_)
        | ScriptLine::Moment(_)
        | ScriptLine::Hold(_)
        | ScriptLine::Go(_)
        | ScriptLine::Until(_, _) => None,
    }
}

fn push_script_front(
    alloc: Global,
    sender: Option<SessionId>,
    onto: &mut List<u8>,
) -> Result<(), NoMemory>
    ensures { OnOk result (onto.new ≡ onto.old ++ script_front (option_map
        (λ s. s.number) sender)) }
{
    match sender {
        None => Ok(()),
        Some(s) => push_behind(alloc, s.number, b" ", onto),
    }
}

fn push_echo_front(
    alloc: Global,
    sender: Option<SessionId>,
    onto: &mut List<u8>,
) -> Result<(), NoMemory>
    ensures { OnOk result (onto.new ≡ onto.old ++ echo_front (option_map (λ s. s.number) sender)) }
{
    match sender {
        None => onto.extend_from_slice(b"== "),
        Some(s) => push_behind(alloc, s.number, b" FE=> ", onto),
    }
}

/// A number, and a word behind it.
fn push_behind(alloc: Global, number: u32, word: &[u8], onto: &mut List<u8>) -> Result<(), NoMemory>
    ensures { OnOk result (onto.new ≡ onto.old ++ (decimal number ++ word.now)) }
{
    push_number(alloc, u64::from(number), onto)?;
    onto.extend_from_slice(word)
}

/// A word, and a number behind it.
fn push_before(alloc: Global, word: &[u8], number: u32, onto: &mut List<u8>) -> Result<(), NoMemory>
    ensures { OnOk result (onto.new ≡ onto.old ++ (word.now ++ decimal number)) }
{
    onto.extend_from_slice(word)?;
    push_number(alloc, u64::from(number), onto)
}

/// A word, and a string behind it.
fn push_text(word: &[u8], text: &Text, onto: &mut List<u8>) -> Result<(), NoMemory>
    ensures { OnOk result (onto.new ≡ onto.old ++ (word.now ++ quoted text.now)) }
{
    onto.extend_from_slice(word)?;
    push_string(text, onto)
}

/// The line, without the number of a client that sends.
#[tactic(auto, unfolding(crate::specs::Spelling::words_of))]
fn push_words(alloc: Global, line: &ScriptLine, onto: &mut List<u8>) -> Result<(), NoMemory>
    ensures { OnOk result (onto.new ≡ onto.old ++ words_of (line_of line.now)) }
{
    match line {
        ScriptLine::Session(s) => push_before(alloc, b"session ", s.number, onto),
        ScriptLine::Lose(b) => push_before(alloc, b"lose ", u32::from(b.number), onto),
        ScriptLine::Cut(size) => push_before(alloc, b"cut ", *size, onto),
        ScriptLine::Moment(text) => push_text(b"moment ", text, onto),
        ScriptLine::Hold(s) => push_behind(alloc, s.number, b" hold", onto),
        ScriptLine::Go(s) => push_behind(alloc, s.number, b" go", onto),
        ScriptLine::Until(s, mark) => {
            push_behind(alloc, s.number, b" until ", onto)?;
            push_mark(alloc, *mark, onto)
        }
        ScriptLine::Raw(_, bytes) => {
            onto.extend_from_slice(b"raw ")?;
            push_hex(bytes.as_slice(), onto)
        }
        ScriptLine::Query(_, text) => push_text(b"'Q' ", text, onto),
        ScriptLine::Parse {
            name,
            text,
            kinds,
            ..
        } => push_parse(alloc, name, text, kinds.as_slice(), onto),
        ScriptLine::Describe { portal, name, .. } => {
            onto.extend_from_slice(b"'D' ")?;
            push_target(*portal, name, onto)
        }
        ScriptLine::Bind {
            portal,
            name,
            formats,
            values,
            results,
            ..
        } => {
            push_text(b"'B' ", portal, onto)?;
            push_text(b" ", name, onto)?;
            push_formats(alloc, formats.as_slice(), onto)?;
            push_values(alloc, values.as_slice(), onto)?;
            push_formats(alloc, results.as_slice(), onto)
        }
        ScriptLine::Execute { portal, limit, .. } => push_execute(alloc, portal, *limit, onto),
        ScriptLine::Close { portal, name, .. } => {
            onto.extend_from_slice(b"'C' ")?;
            push_target(*portal, name, onto)
        }
        ScriptLine::Flush(_) => onto.extend_from_slice(b"'H'"),
        ScriptLine::Sync(_) => onto.extend_from_slice(b"'S'"),
        ScriptLine::Terminate(_) => onto.extend_from_slice(b"'X'"),
    }
}

#[tactic(auto, unfolding(crate::specs::Spelling::words_of))]
fn push_parse(
    alloc: Global,
    name: &Text,
    text: &Text,
    kinds: &[u32],
    onto: &mut List<u8>,
) -> Result<(), NoMemory>
    ensures { OnOk result (onto.new ≡ onto.old ++ words_of (parse 0 name.now text.now kinds.now)) }
{
    push_text(b"'P' ", name, onto)?;
    push_text(b" ", text, onto)?;
    push_kinds(alloc, kinds, onto)
}

#[tactic(auto, unfolding(crate::specs::Spelling::words_of))]
fn push_execute(
    alloc: Global,
    portal: &Text,
    limit: i32,
    onto: &mut List<u8>,
) -> Result<(), NoMemory>
    ensures { OnOk result (onto.new ≡ onto.old ++ words_of (execute 0 portal.now limit)) }
{
    push_text(b"'E' ", portal, onto)?;
    onto.push(b' ')?;
    push_signed(alloc, limit, onto)
}
