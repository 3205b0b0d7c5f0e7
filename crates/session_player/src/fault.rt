//! Why a script was not played to its end.
ghost use Rattle.std.specs.Prelude.{◌≡◌};
ghost use Rattle.session_player.specs.declared.fault.PlayFault.TheVariants as faults;
ghost use Rattle.session_player.specs.Faults.{fault_of};

use pool_base::{NoMemory, SinkFailed};
use session_seat::StepFault;

/// Why a script was not played to its end.
#[derive(Clone, Copy, Debug, PartialEq, Eq, Drop)]
pub enum PlayFault {
    /// Memory was refused.
    NoMemory,
    /// The sink has failed.
    SinkFailed,
    /// A test has failed that is believed to hold always: a defect of the pool.
    Stopped,
}

impl From<NoMemory> for PlayFault {
    ghost from_gives = { λ _ e. e ≡ faults.NoMemory };

    fn from(_: NoMemory) -> PlayFault {
        PlayFault::NoMemory
    }
}

impl From<SinkFailed> for PlayFault {
    ghost from_gives = { λ _ e. e ≡ faults.SinkFailed };

    fn from(_: SinkFailed) -> PlayFault {
        PlayFault::SinkFailed
    }
}

impl From<StepFault> for PlayFault {
    ghost from_gives = { λ fault e. e ≡ fault_of fault };

    fn from(fault: StepFault) -> PlayFault {
        match fault {
            StepFault::NoMemory => PlayFault::NoMemory,
            StepFault::Stopped => PlayFault::Stopped,
        }
    }
}
