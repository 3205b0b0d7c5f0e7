//! Why an exchange is over.
use pool_base::NoMemory;

/// Why an exchange is over.
#[derive(Clone, Copy, Debug, PartialEq, Eq, Drop)]
pub enum ScramFault {
    /// The message is not of its grammar, not of this exchange, or out of turn.
    Malformed,
    /// The proof or the signature is not that of the password.
    WrongProof,
    /// Memory was refused.
    NoMemory,
}

impl From<NoMemory> for ScramFault {
    ghost use Rattle.std.specs.Prelude.{◌≡◌};
    ghost use Rattle.scram.specs.declared.fault.ScramFault.{ScramFault};

    ghost from_gives = { λ _ fault. fault ≡ ScramFault.NoMemory };

    fn from(_: NoMemory) -> ScramFault {
        ScramFault::NoMemory
    }
}
