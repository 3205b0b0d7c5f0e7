//! What a statement does.
ghost use Rattle.std.specs.Prelude.{◌≡◌};
ghost use Rattle.sql_eval.specs.declared.effect.EvalFault.TheVariants.{NoMemory};
ghost use Rattle.sql_eval.specs.Effects.{with_draws};

use crate::row::Row;
use pg_values::Value;
use pool_base::{Code, List, NoMemory};
use sql_values::ExprFault;
use std::alloc::AllocError;

/// Why a statement has no effect.
#[derive(Clone, Copy, Debug, PartialEq, Eq)]
pub enum EvalFault {
    /// The first fault of its walk has this code. So many serial numbers are drawn all the same.
    Refused { code: Code, draws: u32 },
    /// Memory was refused.
    NoMemory,
}

impl From<NoMemory> for EvalFault {
    ghost from_gives = { λ _ fault. fault ≡ NoMemory };

    fn from(_: NoMemory) -> EvalFault {
        EvalFault::NoMemory
    }
}

impl From<AllocError> for EvalFault {
    ghost from_gives = { λ _ fault. fault ≡ NoMemory };

    fn from(_: AllocError) -> EvalFault {
        EvalFault::NoMemory
    }
}

/// The fault of a statement that drew so many numbers.
pub(crate) fn with_draws(draws: u32, fault: ExprFault) -> EvalFault
    ensures { result ≡ with_draws draws fault }
{
    match fault {
        ExprFault::Refused(code) => EvalFault::Refused { code, draws },
        ExprFault::NoMemory => EvalFault::NoMemory,
    }
}

/// What a read gives.
#[derive(Drop)]
pub struct ReadEffect {
    pub rows: List<Row>,
    /// The keys of the rows that FOR UPDATE wants; none without it.
    pub keys: List<Value>,
}

/// What a write leaves at a key: a new row, or none any more.
#[derive(Drop)]
pub struct Change {
    pub table: u8,
    pub key: Value,
    pub row: Option<Row>,
}

/// What a write does.
#[derive(Drop)]
pub struct WriteEffect {
    /// One for each row that is written; no two have one key.
    pub changes: List<Change>,
    /// How many rows are written.
    pub count: u64,
    /// How many serial numbers are drawn.
    pub draws: u32,
}
