//! Where the following of lines stopped.
ghost use Rattle.std.specs.Prelude.{◌≡◌};
ghost use Rattle.journal_reader.specs.declared.run_fault.RunFault.TheVariants.{NoMemory as OutOfMemory};

use crate::fault::LineFault;
use pool_base::NoMemory;

/// Where the following of a journal's lines stopped.
#[derive(Clone, Copy, Debug, PartialEq, Eq, Drop)]
pub enum RunFault {
    /// The line of that event, counted from 0, is not spelled as one.
    BadLine(usize),
    /// No event that may come there was found with the line of that number, counted from 0.
    Event(usize),
    /// Memory was refused.
    NoMemory,
}

impl From<NoMemory> for RunFault {
    ghost from_gives = { λ _ fault. fault ≡ OutOfMemory };

    fn from(_: NoMemory) -> RunFault {
        RunFault::NoMemory
    }
}

/// The fault at the line of that number.
pub(crate) fn fault_at(fault: LineFault, n: usize) -> RunFault {
    match fault {
        LineFault::BadLine => RunFault::BadLine(n),
        LineFault::NotDue => RunFault::Event(n),
        LineFault::NoMemory => RunFault::NoMemory,
    }
}
