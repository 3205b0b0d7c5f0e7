//! Why a field could not be read.
ghost use Rattle.std.specs.Prelude.{◌≡◌};
ghost use Rattle.pg_messages.specs.declared.field_fault.FieldFault.TheVariants as faults;

/// Why a field could not be read.
#[derive(Clone, Copy, Debug, PartialEq, Eq, Drop)]
pub enum FieldFault {
    /// Memory was refused.
    NoMemory,
    /// The bytes are not of the grammar.
    Malformed,
}

impl From<pool_base::NoMemory> for FieldFault {
    ghost from_gives = { λ _ e. e ≡ faults.NoMemory };

    fn from(_: pool_base::NoMemory) -> FieldFault {
        FieldFault::NoMemory
    }
}
