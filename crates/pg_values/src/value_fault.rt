//! Why bytes are no value.
ghost use Rattle.std.specs.Prelude.{◌≡◌};
ghost use Rattle.pg_values.specs.declared.value_fault.ValueFault.TheVariants.{NoMemory};

use pool_base::{Code, NoMemory};
use std::alloc::AllocError;

/// Why bytes are no value of a type.
#[derive(Clone, Copy, Debug, PartialEq, Eq)]
pub enum ValueFault {
    /// The bytes are refused with this code.
    Bad(Code),
    /// Memory was refused.
    NoMemory,
}

impl From<NoMemory> for ValueFault {
    ghost from_gives = { λ _ fault. fault ≡ NoMemory };

    fn from(_: NoMemory) -> ValueFault {
        ValueFault::NoMemory
    }
}

impl From<AllocError> for ValueFault {
    ghost from_gives = { λ _ fault. fault ≡ NoMemory };

    fn from(_: AllocError) -> ValueFault {
        ValueFault::NoMemory
    }
}
