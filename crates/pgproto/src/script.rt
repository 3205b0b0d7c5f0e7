//! The reader of a whole script.
ghost use Rattle.std.specs.Prelude.{◌≡◌, ◌≢◌, ◌<◌, ◌≤◌, ◌+◌, ◌++◌, ◌∷◌, ◌↔◌, ℕ, List, Some, [], length, map, IfOk, IfErr, IfNone, IfSome, IsTrue, OnOk};
ghost use Rattle.pgproto.specs.Line.{Line, line_of};
ghost use Rattle.pgproto.specs.Reading.{Gives};
ghost use Rattle.pgproto.specs.Script.{IfBadLine, IsBadAt, IsNoLine, IsOneLine, IsScript, IsScriptLine, IsScriptOr, IsSkipped, Takes};
ghost use Rattle.pgproto.specs.declared.stop.Stop.TheVariants.{NotALine};

use crate::line::{Script, ScriptLine};
use crate::message::message_of;
use crate::moments::is_timed;
use crate::reader::line;
use crate::stop::Stop;
use pg_messages::fits;
use pool_base::{List, NoMemory};
use std::alloc::Global;

/// Why a script was not read.
#[derive(Clone, Copy, Debug, PartialEq, Eq, Drop)]
pub enum ScriptFault {
    /// The first line that is not of the grammar, counted from 1.
    BadLine(u32),
    /// Memory was refused.
    NoMemory,
}

/// One line whose message can be written, and whose moment is one.
fn script_line(alloc: Global, bytes: &[u8]) -> Result<ScriptLine, Stop>
    ensures found { IfOk result (λ l. IsScriptLine (line_of l) bytes.now) }
    ensures only { (l : Line) → IsScriptLine l bytes.now → Gives line_of result (Some l) }
    ensures none { IfErr result (λ stop. stop ≡ NotALine → (l : Line) → IsScriptLine l bytes.now
        → ⊥) }
{
    let found = line(alloc, bytes)?;
    if !is_timed(alloc, &found) {
        drop(found);
        return Err(Stop::NotALine);
    }
    match message_of(alloc, &found) {
        Ok(Some(message)) => {
            let can = fits(&message);
            drop(message);
            if !can {
                drop(found);
                return Err(Stop::NotALine);
            }
            Ok(found)
        }
        Ok(None) => Ok(found),
        Err(NoMemory) => {
            drop(found);
            Err(Stop::NoMemory)
        }
    }
}

/// The first line and what follows its end, if it has one.
fn next_line(bytes: &[u8]) -> Option<(&[u8], &[u8])>
    ensures parts { IfSome result (λ x. bytes.now ≡ x.0.now ++ 10 ∷ x.1.now) }
    ensures one { IfSome result (λ x. IsOneLine x.0.now) }
    ensures none { IfNone result (IsOneLine bytes.now) }
{
    let end = bytes.iter().position(|byte| *byte == b'\n')?;
    Some((&bytes[..end], &bytes[end + 1..]))
}

/// Whether a line says nothing.
fn is_skipped(line: &[u8]) -> bool
    ensures { IsTrue result ↔ IsSkipped line.now }
{
    matches!(line, [] | [b'#', ..])
}

/// Puts a line behind the others, unless it says nothing.
fn take_line(alloc: Global, found: &mut Vec<ScriptLine>, bytes: &[u8]) -> Result<(), Stop>
    ensures ok { OnOk result (Takes (map line_of found.old.items) (map line_of found.new.items)
        bytes.now) }
    ensures bad { IfErr result (λ stop. stop ≡ NotALine → IsNoLine bytes.now) }
{
    if is_skipped(bytes) {
        return Ok(());
    }
    let line = script_line(alloc, bytes)?;
    found.push(line)?;
    Ok(())
}

/// The lines of a script, without blank lines and comments, which are counted.
pub fn read_script(alloc: Global, text: &[u8]) -> Result<Script, ScriptFault>
    requires { length text.now < 4294967295 }
    ensures found { IfOk result (λ script. IsScript text.now (map line_of script)) }
    ensures only { (found : List Line) → IsScript text.now found → IsScriptOr result found }
    ensures bad { IfBadLine result (λ n. IsBadAt text.now n) }
{
    let mut found = Vec::new(alloc);
    let mut rest = text;
    let mut number = 0;
    while !rest.is_empty() {
        let Some((bytes, after)) = next_line(rest) else {
            return Err(ScriptFault::BadLine(number + 1));
        };
        match take_line(alloc, &mut found, bytes) {
            Ok(()) => rest = after,
            Err(Stop::NotALine) => return Err(ScriptFault::BadLine(number + 1)),
            Err(Stop::NoMemory) => return Err(ScriptFault::NoMemory),
        }
        number += 1;
    }
    Ok(List::from_vec(found))
}
