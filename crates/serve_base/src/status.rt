//! What a status file says.
ghost use Rattle.std.specs.Prelude.{◌≡◌};
ghost use Rattle.serve_base.specs.declared.status.StatusFault.{StatusFault};

use pool_base::{List, NoMemory};

/// Since when and why a backend is down.
#[derive(Drop)]
pub struct Down {
    /// A moment, as an operator reads it: without a blank.
    pub since: List<u8>,
    /// The words that an operator was told.
    pub why: List<u8>,
}

/// What is said of one backend.
#[derive(Drop)]
pub struct Standing {
    pub host: List<u8>,
    pub port: u16,
    /// `None`: it is up.
    pub down: Option<Down>,
}

/// Why a text is no status.
#[derive(Clone, Copy, Debug, PartialEq, Eq, Drop)]
pub enum StatusFault {
    /// The line is the first that is not of the grammar. Lines count from 1.
    BadLine(u32),
    NoMemory,
}

impl From<NoMemory> for StatusFault {
    ghost from_gives = { λ _ fault. fault ≡ StatusFault.NoMemory };

    fn from(_: NoMemory) -> StatusFault {
        StatusFault::NoMemory
    }
}
