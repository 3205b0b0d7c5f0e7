//! Why a script was not played to its end.
ghost use Rattle.std.specs.Prelude.{◌≡◌};
ghost use Rattle.play.specs.declared.play_fault.PlayFault.TheVariants as faults;

use pool_base::{NoMemory, SinkFailed};

/// Why a script was not played to its end.
#[derive(Clone, Copy, Debug, PartialEq, Eq, Drop)]
pub enum PlayFault {
    /// Memory was refused.
    NoMemory,
    /// The sink has failed.
    SinkFailed,
}

impl From<NoMemory> for PlayFault {
    ghost from_gives = { λ _ e. e ≡ faults.NoMemory };

    fn from(_: NoMemory) -> PlayFault {
        PlayFault::NoMemory
    }
}

impl From<SinkFailed> for PlayFault {
    ghost from_gives = { λ _ e. e ≡ faults.SinkFailed };

    fn from(_: SinkFailed) -> PlayFault {
        PlayFault::SinkFailed
    }
}
