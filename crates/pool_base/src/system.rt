//! The system's readers, writers, files and clock.
//!
//! They tell nothing of content. Each `Err` of the system raises their count of faults.
ghost use Rattle.std.specs.Prelude.{◌≡◌, None, false, pos};

use crate::outside::{Clock, Files, Got, Put, Sink, Source};
use std::fs::File;
use std::io::{Read, Write};
use std::os::unix::fs::FileExt;
use std::rt;
use std::time::{Duration, SystemTime};

/// A reader of the system.
#[derive(Drop)]
pub struct ReaderSource<R: Read + Drop> {
    reader: R,
    ended: bool,
    faults: u64,
}

impl<R: Read + Drop> ReaderSource<R> {
    pub fn new(reader: R) -> ReaderSource<R>
        ensures faults { ⟦<ReaderSource<R> as Source>⟧.fault_count result ≡ 0 }
        ensures ended { ⟦<ReaderSource<R> as Source>⟧.ended result ≡ false }
    {
        ReaderSource {
            reader,
            ended: false,
            faults: 0,
        }
    }
}

impl<R: Read + Drop> Source for ReaderSource<R> {
    ghost left = { λ _. None };

    ghost ended = { λ s. s.ended };

    ghost fault_count = { λ s. s.faults };

    fn read(&mut self, into: &mut [u8]) -> Got {
        match self.reader.read(into) {
            Ok(0) => {
                self.ended = true;
                Got::End
            }
            Ok(count) => Got::Bytes(count),
            Err(_) => {
                self.faults = self.faults.saturating_add(1);
                Got::Failed
            }
        }
    }

    fn faults(&self) -> u64 {
        self.faults
    }
}

/// A writer of the system. A write that takes nothing is a fault.
#[derive(Drop)]
pub struct WriterSink<W: Write + Drop> {
    writer: W,
    faults: u64,
}

impl<W: Write + Drop> WriterSink<W> {
    pub fn new(writer: W) -> WriterSink<W>
        ensures { ⟦<WriterSink<W> as Sink>⟧.fault_count result ≡ 0 }
    {
        WriterSink { writer, faults: 0 }
    }
}

impl<W: Write + Drop> Sink for WriterSink<W> {
    ghost taken = { λ _. None };

    ghost fault_count = { λ s. s.faults };

    fn write(&mut self, piece: &[u8]) -> Put {
        match self.writer.write(piece) {
            Ok(count) if count > 0 => Put::Taken(count),
            _ => {
                self.faults = self.faults.saturating_add(1);
                Put::Failed
            }
        }
    }

    fn faults(&self) -> u64 {
        self.faults
    }
}

/// The files of the system, by their paths.
#[derive(Drop)]
pub struct SystemFiles<R: rt::Files + Drop> {
    rt: R,
    faults: u64,
}

impl<R: rt::Files<File = File> + Drop> SystemFiles<R> {
    pub fn new(rt: R) -> SystemFiles<R>
        ensures { ⟦<SystemFiles<R> as Files>⟧.fault_count result ≡ 0 }
    {
        SystemFiles { rt, faults: 0 }
    }
}

impl<R: rt::Files<File = File> + Drop> Files for SystemFiles<R> {
    ghost use Rattle.pool_base.specs.Outside.{untold};

    ghost contents = { λ _ _. untold };

    ghost fault_count = { λ f. f.faults };

    fn read(&mut self, name: &str, place: u64, into: &mut [u8]) -> Got {
        let read = match File::open(&self.rt, name) {
            Ok(file) => file.read_at(into, place),
            Err(fault) => Err(fault),
        };
        match read {
            Ok(0) => Got::End,
            Ok(count) => Got::Bytes(count),
            Err(_) => {
                self.faults = self.faults.saturating_add(1);
                Got::Failed
            }
        }
    }

    fn faults(&self) -> u64 {
        self.faults
    }
}

/// The clock of the system. Where it gives an `Err`, the last moment is given again, and 0 where
/// there is none yet.
#[derive(Drop)]
pub struct SystemClock<R: rt::Clock + Drop> {
    rt: R,
    last: i64,
}

/// The seconds from 1970-01-01 to 2000-01-01.
const SECONDS_TO_2000: u64 = 946_684_800;

/// The moment of a time since 1970-01-01 00:00 UTC.
fn moment_of(since_1970: Duration) -> Option<i64> {
    let micros = i64::try_from(since_1970.as_micros()).ok()?;
    micros.checked_sub(SECONDS_TO_2000 as i64 * 1_000_000)
}

impl<R: rt::Clock + Drop> SystemClock<R> {
    pub fn new(rt: R) -> SystemClock<R>
        ensures { result.last ≡ pos 0 }
    {
        SystemClock { rt, last: 0 }
    }

    /// The moment that the system gives.
    fn ask(&self) -> Option<i64> {
        let time = SystemTime::now(&self.rt).ok()?;
        moment_of(time.duration_since(SystemTime::UNIX_EPOCH).ok()?)
    }
}

impl<R: rt::Clock + Drop> Clock for SystemClock<R> {
    ghost given = { λ _. None };

    fn now(&mut self) -> i64 {
        if let Some(moment) = self.ask() {
            self.last = moment;
        }
        self.last
    }
}
