//! Why a text is no schema.
ghost use Rattle.std.specs.Prelude.{◌≡◌};
ghost use Rattle.schema.specs.declared.fault.Stop.TheVariants.{NoMemory as Memory};
ghost use Rattle.schema.specs.declared.fault.SchemaFault.TheVariants.{NoMemory as FaultMemory};

use pool_base::NoMemory;
use std::alloc::AllocError;

/// The first fault of a text. Lines count from 1.
#[derive(Clone, Copy, Debug, PartialEq, Eq, Drop)]
pub enum SchemaFault {
    /// A token in this line is the first that is not of the grammar or breaks a rule.
    BadLine(u32),
    /// Memory was refused.
    NoMemory,
}

/// Why a reader did not go on.
#[derive(Clone, Copy, Debug, PartialEq, Eq, Drop)]
pub enum Stop {
    /// The token is not of the grammar or breaks a rule.
    Refused,
    /// Memory was refused.
    NoMemory,
}

/// Why tokens are no schema.
#[derive(Clone, Copy, Debug, PartialEq, Eq, Drop)]
pub enum Refusal {
    /// The token at this byte is the first that is not of the grammar or breaks a rule.
    At(u32),
    /// They end within a table.
    AtEnd,
    /// Memory was refused.
    NoMemory,
}

impl From<NoMemory> for Stop {
    ghost from_gives = { λ _ stop. stop ≡ Memory };

    fn from(_: NoMemory) -> Stop {
        Stop::NoMemory
    }
}

impl From<AllocError> for Stop {
    ghost from_gives = { λ _ stop. stop ≡ Memory };

    fn from(_: AllocError) -> Stop {
        Stop::NoMemory
    }
}

impl From<NoMemory> for SchemaFault {
    ghost from_gives = { λ _ fault. fault ≡ FaultMemory };

    fn from(_: NoMemory) -> SchemaFault {
        SchemaFault::NoMemory
    }
}
