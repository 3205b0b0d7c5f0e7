//! A journal: its header, and its events.
ghost use Rattle.std.specs.Prelude.{◌≡◌, IfOk};
ghost use Rattle.play_laws.specs.Journals.{IsRun};
ghost use Rattle.journal_check.specs.Journals.{IsJournal};

use crate::fault::{JournalFault, of_run};
use crate::header::read_header;
use crate::lines::{line_count, place_of};
use journal::print_header;
use journal_reader::check_events;
use std::alloc::Global;

/// How many events stand behind the header in front, which stands behind so many lines.
fn check_behind(alloc: Global, text: &[u8], before: usize) -> Result<usize, JournalFault>
    ensures { IfOk result (IsRun text.now) }
{
    let (config, start) = read_header(alloc, text, before)?;
    let header = print_header(alloc, &config, &start.catalogue)?;
    let Some(lines) = text.strip_prefix(header.as_bytes()) else {
        return Err(JournalFault::BadLine(before.saturating_add(1)));
    };
    match check_events(alloc, &start, lines) {
        Ok(n) => Ok(n),
        Err(fault) => Err(of_run(fault, before.saturating_add(line_count(header.as_bytes())))),
    }
}

/// The last line of a text without a header: an empty one has one line too.
fn last_line(text: &[u8]) -> usize {
    match text {
        [.., b'\n'] => line_count(text),
        _ => line_count(text).saturating_add(1),
    }
}

/// How many events a journal has. Lines before its header are not looked at.
///
/// Errors: the first bad line; the first event for which none that may come was found; want of
/// memory.
pub(crate) fn read_journal(alloc: Global, text: &[u8]) -> Result<usize, JournalFault>
    ensures { IfOk result (IsJournal text.now) }
{
    let Some(at) = place_of(b"config ", text) else {
        return Err(JournalFault::BadLine(last_line(text)));
    };
    let (before, run) = text.split_at(at);
    check_behind(alloc, run, line_count(before))
}
