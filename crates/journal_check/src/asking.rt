//! What the words ask for, and what is told.
ghost use Rattle.std.specs.Prelude.{◌≡◌, ℕ, List as Sequence, IfOk, map, string_bytes};
ghost use Rattle.pool_base.specs.Outside.{Told, IsTold, IsLonger};
ghost use Rattle.journal_check.specs.Journals.{IsJournal};
ghost use Rattle.journal_check.specs.Endings.{Ends, FileEnds, NoWordEnds, bad_line, event_line, outside, schedule_line};

use crate::fault::JournalFault;
use crate::reading::read_journal;
use crate::status::Status;
use pool_base::{Files, NoMemory, ReadFault, Sink, read_whole, write_all};
use std::alloc::Global;

/// The longest journal that is read.
///
/// Units: bytes.
const JOURNAL_LIMIT: usize = 268_435_456;

/// The line of a schedule of so many events.
fn schedule_line(alloc: Global, n: usize) -> Result<String, NoMemory>
    ensures { IfOk result (λ text. string_bytes text ≡ schedule_line n) }
{
    Ok(format!(in alloc; "journal: a schedule, {n} events\n")?)
}

/// The line that names a bad line.
fn bad_line(alloc: Global, n: usize) -> Result<String, NoMemory>
    ensures { IfOk result (λ text. string_bytes text ≡ bad_line n) }
{
    Ok(format!(in alloc; "journal: line {n}: bad line\n")?)
}

/// The line that names an event that fails.
fn event_line(alloc: Global, n: usize) -> Result<String, NoMemory>
    ensures { IfOk result (λ text. string_bytes text ≡ event_line n) }
{
    Ok(format!(in alloc; "journal: event {n} fails\n")?)
}

fn tell_schedule<O: Sink>(alloc: Global, n: usize, out: &mut O) -> Result<Status, NoMemory>
    ensures { IfOk result (λ status. (told : Told) → (text : Sequence ℕ) → IsTold told text
        → IsJournal text n → (before later : ℕ) → FileEnds told status (outside before later
        (O.fault_count out.old) (O.fault_count out.new) (O.taken out.old) (O.taken out.new))) }
{
    let line = schedule_line(alloc, n)?;
    match write_all(out, line.as_bytes()) {
        Ok(()) => Ok(Status::Done),
        Err(_) => Ok(Status::SinkFailed),
    }
}

fn tell_bad_line<O: Sink>(alloc: Global, n: usize, out: &mut O) -> Result<Status, NoMemory>
    ensures { IfOk result (λ status. (told : Told) → (before later : ℕ) → FileEnds told status
        (outside before later (O.fault_count out.old) (O.fault_count out.new)
        (O.taken out.old) (O.taken out.new))) }
{
    let line = bad_line(alloc, n)?;
    match write_all(out, line.as_bytes()) {
        Ok(()) => Ok(Status::BadLine),
        Err(_) => Ok(Status::SinkFailed),
    }
}

fn tell_event<O: Sink>(alloc: Global, n: usize, out: &mut O) -> Result<Status, NoMemory>
    ensures { IfOk result (λ status. (told : Told) → (before later : ℕ) → FileEnds told status
        (outside before later (O.fault_count out.old) (O.fault_count out.new)
        (O.taken out.old) (O.taken out.new))) }
{
    let line = event_line(alloc, n)?;
    match write_all(out, line.as_bytes()) {
        Ok(()) => Ok(Status::EventFails),
        Err(_) => Ok(Status::SinkFailed),
    }
}

fn tell_fault<O: Sink>(alloc: Global, fault: JournalFault, out: &mut O) -> Result<Status, NoMemory>
    ensures { IfOk result (λ status. (told : Told) → (before later : ℕ) → FileEnds told status
        (outside before later (O.fault_count out.old) (O.fault_count out.new)
        (O.taken out.old) (O.taken out.new))) }
{
    match fault {
        JournalFault::BadLine(n) => tell_bad_line(alloc, n, out),
        JournalFault::Event(n) => tell_event(alloc, n, out),
        JournalFault::NoMemory => Err(NoMemory),
    }
}

/// Checks the text of a journal, and tells what it is.
fn check_text<O: Sink>(alloc: Global, text: &[u8], out: &mut O) -> Result<Status, NoMemory>
    ensures { IfOk result (λ status. (told : Told) → IsTold told text.now → (before later : ℕ)
        → FileEnds told status (outside before later (O.fault_count out.old)
        (O.fault_count out.new) (O.taken out.old) (O.taken out.new))) }
{
    match read_journal(alloc, text) {
        Ok(n) => tell_schedule(alloc, n, out),
        Err(fault) => tell_fault(alloc, fault, out),
    }
}

/// Tells that the file is longer than a journal that is read.
fn tell_too_long<O: Sink>(out: &mut O) -> Status
    ensures { (told : Told) → IsLonger told 268435456 → (before later : ℕ) → FileEnds told result
        (outside before later (O.fault_count out.old) (O.fault_count out.new)
        (O.taken out.old) (O.taken out.new)) }
{
    match write_all(out, b"journal: too long\n") {
        Ok(()) => Status::BadLine,
        Err(_) => Status::SinkFailed,
    }
}

/// Checks the journal of that name, and tells what it is.
fn check_file<F: Files, O: Sink>(
    alloc: Global,
    name: &str,
    files: &mut F,
    out: &mut O,
) -> Result<Status, NoMemory>
    ensures { IfOk result (λ status. FileEnds (F.contents files.old name.now) status (outside
        (F.fault_count files.old) (F.fault_count files.new) (O.fault_count out.old)
        (O.fault_count out.new) (O.taken out.old) (O.taken out.new))) }
{
    match read_whole(alloc, files, name, JOURNAL_LIMIT) {
        Ok(text) => check_text(alloc, text.as_slice(), out),
        Err(ReadFault::TooLong) => Ok(tell_too_long(out)),
        Err(ReadFault::Failed) => Ok(Status::FilesFailed),
        Err(ReadFault::NoMemory) => Err(NoMemory),
    }
}

/// Tells that the words are no command.
fn tell_no_command<O: Sink>(out: &mut O) -> Status
    ensures { (before later : ℕ) → NoWordEnds result (outside before later (O.fault_count out.old)
        (O.fault_count out.new) (O.taken out.old) (O.taken out.new)) }
{
    match write_all(out, b"journal: the words are no command\n") {
        Ok(()) => Status::NoCommand,
        Err(_) => Status::SinkFailed,
    }
}

/// Checks the journal that the one word names, and tells what it is.
pub fn check_journal<F: Files, O: Sink>(
    alloc: Global,
    words: &[&str],
    files: &mut F,
    out: &mut O,
) -> Result<Status, NoMemory>
    // Each status has its cause, and the line that was written with it.
    ensures { IfOk result (λ status. Ends (map (λ w. w.now) words.now) (F.contents files.old) status
        (outside (F.fault_count files.old) (F.fault_count files.new) (O.fault_count out.old)
        (O.fault_count out.new) (O.taken out.old) (O.taken out.new))) }
{
    match words {
        [name] => check_file(alloc, name, files, out),
        _ => Ok(tell_no_command(out)),
    }
}
