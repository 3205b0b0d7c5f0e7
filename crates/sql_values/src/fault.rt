//! Why an expression has no value.
ghost use Rattle.std.specs.Prelude.{◌≡◌};
ghost use Rattle.sql_values.specs.declared.fault.ExprFault.TheVariants.{NoMemory};

use pool_base::{Code, NoMemory};
use std::alloc::AllocError;

/// Why an expression has no value.
#[derive(Clone, Copy, Debug, PartialEq, Eq)]
pub enum ExprFault {
    /// The first fault of its evaluation has this code.
    Refused(Code),
    /// Memory was refused.
    NoMemory,
}

impl From<NoMemory> for ExprFault {
    ghost from_gives = { λ _ fault. fault ≡ NoMemory };

    fn from(_: NoMemory) -> ExprFault {
        ExprFault::NoMemory
    }
}

impl From<AllocError> for ExprFault {
    ghost from_gives = { λ _ fault. fault ≡ NoMemory };

    fn from(_: AllocError) -> ExprFault {
        ExprFault::NoMemory
    }
}

/// A number is out of the range of its type.
///
/// Source: PostgreSQL 15, "PostgreSQL Error Codes", numeric_value_out_of_range.
pub(crate) const OUT_OF_RANGE: Code = Code { bytes: *b"22003" };

/// A divisor is 0.
///
/// Source: PostgreSQL 15, "PostgreSQL Error Codes", division_by_zero.
pub(crate) const BY_ZERO: Code = Code { bytes: *b"22012" };

/// A text is longer than 1000000 bytes.
///
/// Source: PostgreSQL 15, "PostgreSQL Error Codes", program_limit_exceeded. House rule: the limit.
pub(crate) const TOO_LARGE: Code = Code { bytes: *b"54000" };
