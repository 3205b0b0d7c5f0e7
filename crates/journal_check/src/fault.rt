//! Where a check of a journal stopped.
ghost use Rattle.std.specs.Prelude.{◌≡◌};
ghost use Rattle.journal_check.specs.declared.fault.JournalFault.TheVariants.{NoMemory as OutOfMemory};

use journal_reader::RunFault;
use pool_base::NoMemory;
use pool_config::ConfigFault;
use schema::SchemaFault;

/// Where a check of a journal stopped. Lines and events are counted from 1.
#[derive(Clone, Copy, Drop)]
pub(crate) enum JournalFault {
    /// The line is not of a journal.
    BadLine(usize),
    /// No event that may come there was found with the line of that event.
    Event(usize),
    /// Memory was refused.
    NoMemory,
}

impl From<NoMemory> for JournalFault {
    ghost from_gives = { λ _ fault. fault ≡ OutOfMemory };

    fn from(_: NoMemory) -> JournalFault {
        JournalFault::NoMemory
    }
}

/// The fault of a configuration whose first line stands behind so many lines, and that has so many.
pub(crate) fn of_config(fault: ConfigFault, before: usize, count: usize) -> JournalFault {
    match fault {
        ConfigFault::BadLine(line)
        | ConfigFault::UnknownName(line)
        | ConfigFault::WrongMode(line) => {
            JournalFault::BadLine(before.saturating_add(line as usize))
        }
        ConfigFault::Missing(_) => JournalFault::BadLine(before.saturating_add(count)),
        ConfigFault::NoMemory => JournalFault::NoMemory,
    }
}

/// The fault of a schema whose first line stands behind so many lines.
pub(crate) fn of_schema(fault: SchemaFault, before: usize) -> JournalFault {
    match fault {
        SchemaFault::BadLine(line) => JournalFault::BadLine(before.saturating_add(line as usize)),
        SchemaFault::NoMemory => JournalFault::NoMemory,
    }
}

/// The fault of events whose first line stands behind so many lines.
pub(crate) fn of_run(fault: RunFault, before: usize) -> JournalFault {
    match fault {
        RunFault::BadLine(n) => JournalFault::BadLine(before.saturating_add(n).saturating_add(1)),
        RunFault::Event(n) => JournalFault::Event(n.saturating_add(1)),
        RunFault::NoMemory => JournalFault::NoMemory,
    }
}
