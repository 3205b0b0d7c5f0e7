//! Why a text is refused.
ghost use Rattle.std.specs.Prelude.{◌≡◌};
ghost use Rattle.sql_reader.specs.declared.fault.SqlFault.TheVariants.{NoMemory as Memory};
ghost use Rattle.sql_reader.specs.Text.{fault_of};

use crate::refusal::Refusal;
use pool_base::{NoMemory, Text};

/// Why a text is refused. A place counts bytes, from 0.
#[derive(Debug, Drop)]
pub enum SqlFault {
    /// No text goes on at this place, and no name says why.
    Syntax(u32),
    /// What this names is of SQL, and of no statement that is taken.
    Outside { name: Text, place: u32 },
    /// The text has more than 65536 tokens, more than 256 statements, more than 64 nestings open
    /// at once, a parameter above 1000, or a name of more than 63 bytes.
    TooLong,
    /// Memory was refused.
    NoMemory,
}

impl From<NoMemory> for SqlFault {
    ghost from_gives = { λ _ e. e ≡ Memory };

    fn from(_e: NoMemory) -> SqlFault {
        SqlFault::NoMemory
    }
}

/// A refusal as a fault.
pub(crate) fn fault_of(refusal: Refusal) -> SqlFault
    ensures { result ≡ fault_of refusal }
{
    match refusal {
        Refusal::Syntax(place) => SqlFault::Syntax(place),
        Refusal::Outside { name, place } => SqlFault::Outside { name, place },
        Refusal::TooLong => SqlFault::TooLong,
    }
}
