//! Why a statement's text could not be read again.
use pool_base::NoMemory;

/// Why a statement's text could not be read again.
#[derive(Clone, Copy, Debug, PartialEq, Eq, Drop)]
pub enum AgainFault {
    /// Memory was refused.
    NoMemory,
    /// The text has 4294967296 bytes or more.
    TooLong,
}

impl From<NoMemory> for AgainFault {
    ghost use Rattle.std.specs.Prelude.{◌≡◌};
    ghost use Rattle.sql_profile.specs.declared.fault.AgainFault.TheVariants.{NoMemory as Memory};

    ghost from_gives = { λ _ fault. fault ≡ Memory };

    fn from(_: NoMemory) -> AgainFault {
        AgainFault::NoMemory
    }
}
