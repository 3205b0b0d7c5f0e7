//! Why a step was not taken.
ghost use Rattle.std.specs.Prelude.{◌≡◌};
ghost use Rattle.session_seat.specs.declared.fault.StepFault.TheVariants as faults;

use pool_base::NoMemory;

/// Why a step was not taken.
#[derive(Clone, Copy, Debug, PartialEq, Eq, Drop)]
pub enum StepFault {
    /// Memory was refused.
    NoMemory,
    /// A test of a condition has failed that is believed to hold always: a defect of the pool.
    Stopped,
}

impl From<NoMemory> for StepFault {
    ghost from_gives = { λ _ e. e ≡ faults.NoMemory };

    fn from(_: NoMemory) -> StepFault {
        StepFault::NoMemory
    }
}
