//! What is written of a play: the lines of the part that is played, and the journal.
ghost use Rattle.std.specs.Prelude.{◌≡◌, ◌≤◌, ◌+◌, ◌++◌, ◌∷◌, [], IfOk, IfErr, OnOk, OnErr};
ghost use Rattle.journal.specs.Events.{spelled_event};
ghost use Rattle.session_seat.specs.Told.{added};
ghost use Rattle.session_seat.specs.Speech.{word_line};
ghost use Rattle.session_seat.specs.declared.fault.StepFault.TheVariants.{Stopped};

use crate::fault::StepFault;
use crate::setting::Setting;
use journal::{Event, print_event};
use pool_base::{List, NoMemory, SessionId, Text};
use std::alloc::Global;

/// The journal, where one is kept.
#[derive(Drop)]
pub enum Journal {
    Off,
    On(List<u8>),
}

/// The transcript's lines of the part that is played, and the journal's lines so far.
#[derive(Drop)]
pub struct Book {
    pub lines: List<u8>,
    pub journal: Journal,
    /// How many events there were. A play has fewer than 2^64, so each turn and all rounds end.
    pub events: u64,
}

impl Book {
    /// No lines.
    pub fn new(alloc: Global, journal: Journal) -> Book
        ensures events { result.events ≡ 0 }
        ensures journal { result.journal ≡ journal }
        ensures lines { result.lines ≡ [] }
    {
        Book {
            lines: List::new(alloc),
            journal,
            events: 0,
        }
    }

    /// Counts an event, and puts its line into the journal.
    pub fn note(&mut self, setting: Setting, event: Event) -> Result<(), StepFault>
        ensures line { OnOk result (self.new.journal ≡ added self.old.journal (spelled_event
            setting.entry.tables.now event.entry ++ 10 ∷ [])) }
        ensures counted { OnOk result (self.new.events ≡ self.old.events + 1) }
        ensures events { self.old.events ≤ self.new.events }
        ensures as_before { OnErr result (self.new.journal ≡ self.old.journal) }
        ensures lines { self.new.lines ≡ self.old.lines }
        ensures full { IfErr result (λ e. e ≡ Stopped
            → 18446744073709551615 ≤ self.old.events) }
    {
        let line = self.spelled(setting, event)?;
        self.keep(&line)
    }

    /// The journal's line of an event; no text where no journal is kept.
    pub fn spelled(&self, setting: Setting, event: Event) -> Result<Text, NoMemory>
        ensures { IfOk result (λ line. added self.now.journal line ≡ added self.now.journal
            (spelled_event setting.entry.tables.now event.entry ++ 10 ∷ [])) }
    {
        match &self.journal {
            Journal::Off => Ok(Text::from_string(String::new(setting.alloc))),
            Journal::On(_) => print_event(setting.alloc, setting.tables, event),
        }
    }

    /// Counts an event whose line this is, and puts the line into the journal.
    pub fn keep(&mut self, line: &Text) -> Result<(), StepFault>
        ensures line { OnOk result (self.new.journal ≡ added self.old.journal line.now) }
        ensures counted { OnOk result (self.new.events ≡ self.old.events + 1) }
        ensures events { self.old.events ≤ self.new.events }
        ensures as_before { OnErr result (self.new.journal ≡ self.old.journal) }
        ensures lines { self.new.lines ≡ self.old.lines }
        ensures full { IfErr result (λ e. e ≡ Stopped
            → 18446744073709551615 ≤ self.old.events) }
    {
        let Some(events) = self.events.checked_add(1) else {
            return Err(StepFault::Stopped);
        };
        self.events = events;
        match &mut self.journal {
            Journal::Off => Ok(()),
            Journal::On(lines) => {
                lines.extend_from_slice(line.as_bytes())?;
                Ok(())
            }
        }
    }

    /// Puts bytes into the transcript.
    pub fn say(&mut self, bytes: &[u8]) -> Result<(), NoMemory>
        ensures lines { OnOk result (self.new.lines ≡ self.old.lines ++ bytes.now) }
        ensures events { self.new.events ≡ self.old.events }
        ensures journal { self.new.journal ≡ self.old.journal }
    {
        self.lines.extend_from_slice(bytes)
    }

    /// Puts the line of a number and a word.
    pub fn say_of(&mut self, alloc: Global, s: SessionId, word: &str) -> Result<(), NoMemory>
        ensures lines { OnOk result (self.new.lines
            ≡ self.old.lines ++ word_line s.number word.now) }
        ensures events { self.new.events ≡ self.old.events }
        ensures journal { self.new.journal ≡ self.old.journal }
    {
        let number = s.number;
        let line = format!(in alloc; "{number} {word}\n")?;
        self.say(line.as_bytes())
    }
}
