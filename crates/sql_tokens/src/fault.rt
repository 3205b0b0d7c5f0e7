//! Why a list of tokens could not be read.
ghost use Rattle.std.specs.Prelude.{◌≡◌, length};
ghost use Rattle.sql_tokens.specs.declared.fault.Fault.TheVariants.{Syntax};
ghost use Rattle.sql_tokens.specs.declared.fault.ReadError.TheVariants.{NoMemory as Memory, Fault as ReadFault};

use pool_base::NoMemory;
use std::alloc::{AllocError, AllocFailed};

/// What a reader waited for at the token that it refused.
#[derive(Clone, Copy, Debug, PartialEq, Eq)]
pub enum Awaited {
    /// An operand of an expression.
    Operand,
    /// What an operator, a qualifier or a type word that has begun goes on with.
    Word,
    /// The `)` of a function without arguments.
    Arguments,
    /// The `)` of a parenthesis of an expression, or an operator.
    Close,
    /// The end of an expression or of a statement, or an operator.
    End,
    /// What a statement that has begun goes on with.
    Statement,
    /// The name with which an item of ORDER BY begins.
    Item,
    /// The `*` of `count(`.
    Star,
    /// VALUES, or the columns before it.
    Values,
    /// The number of a backend.
    Backend,
}

/// The first fault of a list of tokens, with the number of tokens from it to the end.
#[derive(Clone, Copy, Debug, PartialEq, Eq)]
pub enum Fault {
    /// No text of the grammar goes on with the token.
    Syntax { left: usize, awaited: Awaited },
    /// The token begins a nesting, and passes the limit.
    TooDeep { left: usize },
}

/// Why a list of tokens could not be read.
#[derive(Debug, Drop)]
pub enum ReadError {
    /// Memory was refused.
    NoMemory,
    /// It is none of the grammar within the limit.
    Fault(Fault),
}

impl From<NoMemory> for ReadError {
    ghost from_gives = { λ _ e. e ≡ Memory };

    fn from(_e: NoMemory) -> ReadError {
        ReadError::NoMemory
    }
}

impl From<AllocError> for ReadError {
    ghost from_gives = { λ _ e. e ≡ Memory };

    fn from(_e: AllocError) -> ReadError {
        ReadError::NoMemory
    }
}

impl<T: Drop> From<AllocFailed<T>> for ReadError {
    ghost from_gives = { λ _ e. e ≡ Memory };

    fn from(_e: AllocFailed<T>) -> ReadError {
        ReadError::NoMemory
    }
}

/// The fault that refuses the first of these tokens, or their end.
pub fn unexpected<T>(tokens: &[T], awaited: Awaited) -> ReadError
    ensures { result ≡ ReadFault (Syntax (length tokens.now) awaited) }
{
    ReadError::Fault(Fault::Syntax {
        left: tokens.len(),
        awaited,
    })
}
