//! Why a statement has no form at a moment.
ghost use Rattle.std.specs.Prelude.{◌≡◌};
ghost use Rattle.time_rewrite.specs.declared.fault.RewriteFault.TheVariants.{NoMemory};

use pool_base::NoMemory;
use std::alloc::AllocError;

/// Why a statement has no form at a moment.
#[derive(Clone, Copy, Debug, PartialEq, Eq)]
pub enum RewriteFault {
    /// The moment is not of the years 1 to 9999.
    MomentOutOfRange,
    /// Memory was refused.
    NoMemory,
}

impl From<NoMemory> for RewriteFault {
    ghost from_gives = { λ _ fault. fault ≡ NoMemory };

    fn from(_: NoMemory) -> RewriteFault {
        RewriteFault::NoMemory
    }
}

impl From<AllocError> for RewriteFault {
    ghost from_gives = { λ _ fault. fault ≡ NoMemory };

    fn from(_: AllocError) -> RewriteFault {
        RewriteFault::NoMemory
    }
}
