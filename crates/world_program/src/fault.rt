//! Why events have no world behind them.
ghost use Rattle.std.specs.Prelude.{◌≡◌};
ghost use Rattle.world_program.specs.declared.fault.ReplayFault.TheVariants.{NoMemory};

use pool_base::NoMemory;

/// Why events have no world behind them.
#[derive(Clone, Copy, Debug, PartialEq, Eq)]
pub enum ReplayFault {
    /// The event of that number, counted from 0, is the first that may not come.
    Event(usize),
    /// Memory was refused.
    NoMemory,
}

impl From<NoMemory> for ReplayFault {
    ghost from_gives = { λ _ fault. fault ≡ NoMemory };

    fn from(_: NoMemory) -> ReplayFault {
        ReplayFault::NoMemory
    }
}
