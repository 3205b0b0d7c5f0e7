//! What is written of a play.
ghost use Rattle.std.specs.Prelude.{◌≡◌, ◌≤◌, ◌⊎◌, [], OnOk, OnErr, IfErr};
ghost use Rattle.pgproto.specs.Line.{line_of};
ghost use Rattle.pgproto.specs.Spelling.{IsOfGrammar};
ghost use Rattle.pool_base.specs.Outside.{Appends, AppendsFront, Rose};
ghost use Rattle.pool_config.specs.Configuration.{IsAllowed};
ghost use Rattle.schema.specs.Ranges.{AreInRange};
ghost use Rattle.session_player.specs.declared.fault.PlayFault.TheVariants as faults;
ghost use Rattle.session_player.specs.BrokenOff.{IsJournalFront};
ghost use Rattle.session_player.specs.Journals.{IsPut, IsShort};
ghost use Rattle.session_player.specs.Written.{Grew, echo_of};

use crate::fault::PlayFault;
use journal::print_header;
use pgproto::{ScriptLine, echo};
use pool_base::{Sink, write_all};
use session_seat::{Book, Journal, Setting};
use std::alloc::Global;

/// Writes bytes.
fn put<O: Sink>(out: &mut O, bytes: &[u8]) -> Result<(), PlayFault>
    ensures all { OnOk result (Appends (O.taken out.old) (O.taken out.new) bytes.now) }
    ensures front { OnErr result (AppendsFront (O.taken out.old) (O.taken out.new) bytes.now) }
    ensures grows { Grew (O.taken out.old) (O.taken out.new) }
    ensures sink { OnErr result (Rose (O.fault_count out.old) (O.fault_count out.new)) }
    ensures later { O.fault_count out.old ≤ O.fault_count out.new }
{
    write_all(out, bytes)?;
    Ok(())
}

/// Writes the echo of a line.
pub(crate) fn put_echo<O: Sink>(
    alloc: Global,
    line: &ScriptLine,
    out: &mut O,
) -> Result<(), PlayFault>
    requires { IsOfGrammar (line_of line.now) }
    ensures all { OnOk result (Appends (O.taken out.old) (O.taken out.new) (echo_of (line_of
        line.now))) }
    ensures front { OnErr result (AppendsFront (O.taken out.old) (O.taken out.new) (echo_of (line_of
        line.now))) }
    ensures grows { Grew (O.taken out.old) (O.taken out.new) }
    ensures sink { IfErr result (λ e. e ≡ faults.SinkFailed
        → Rose (O.fault_count out.old) (O.fault_count out.new)) }
    ensures later { O.fault_count out.old ≤ O.fault_count out.new }
{
    let text = echo(alloc, line)?;
    put(out, text.as_bytes())
}

/// Writes the lines of the part that was played.
pub(crate) fn put_told<O: Sink>(book: &mut Book, out: &mut O) -> Result<(), PlayFault>
    ensures all { OnOk result (Appends (O.taken out.old) (O.taken out.new) book.old.lines) }
    ensures front { OnErr result (AppendsFront (O.taken out.old) (O.taken out.new)
        book.old.lines) }
    ensures journal { book.new.journal ≡ book.old.journal }
    ensures emptied { OnOk result (book.new.lines ≡ []) }
    ensures grows { Grew (O.taken out.old) (O.taken out.new) }
    ensures sink { IfErr result (λ e. e ≡ faults.SinkFailed
        → Rose (O.fault_count out.old) (O.fault_count out.new)) }
    ensures later { O.fault_count out.old ≤ O.fault_count out.new }
{
    put(out, book.lines.as_slice())?;
    book.lines.truncate(0);
    Ok(())
}

/// Writes the journal, where one is kept.
pub(crate) fn put_journal<O: Sink>(
    setting: Setting,
    book: &Book,
    out: &mut O,
) -> Result<(), PlayFault>
    requires config { IsAllowed setting.config.now }
    requires in_range { AreInRange setting.tables.now }
    ensures put { OnOk result (IsPut setting.entry.config.now setting.entry.tables.now
        book.now.journal (O.taken out.old) (O.taken out.new)) }
    ensures front { OnErr result (IsJournalFront setting.entry.config.now setting.entry.tables.now
        book.now.journal (O.taken out.old) (O.taken out.new)
        ⊎ (O.taken out.new ≡ O.taken out.old)) }
    ensures grows { Grew (O.taken out.old) (O.taken out.new) }
    ensures sink { IfErr result (λ e. e ≡ faults.SinkFailed
        → Rose (O.fault_count out.old) (O.fault_count out.new)) }
    ensures later { O.fault_count out.old ≤ O.fault_count out.new }
{
    match &book.journal {
        Journal::Off => Ok(()),
        Journal::On(lines) => {
            let header = print_header(setting.alloc, setting.config, setting.tables)?;
            put(out, header.as_bytes())?;
            put(out, lines.as_slice())
        }
    }
}

/// A journal that is kept has fewer than 2^64 bytes.
pub(crate) fn is_short(journal: &Journal)
    ensures { IsShort journal.now }
{
    if let Journal::On(lines) = journal {
        let _count = lines.len();
    }
}
