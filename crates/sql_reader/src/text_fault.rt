//! Why a text could not be read.
ghost use Rattle.std.specs.Prelude.{◌≡◌};
ghost use Rattle.sql_reader.specs.declared.text_fault.TextError.TheVariants.{NoMemory as Memory};
ghost use Rattle.sql_reader.specs.TextReading.{error_of};

use pool_base::NoMemory;
use sql_tokens::{Awaited, Fault, ReadError};

/// The first fault of a text, with the number of tokens from it to the end.
#[derive(Clone, Copy, Debug, PartialEq, Eq)]
pub enum TextFault {
    /// No text of the grammar goes on with the token.
    Syntax { left: usize, awaited: Awaited },
    /// The token is the `*` or the `count` of a SELECT that ends behind them, without FROM.
    WithoutFrom { left: usize },
    /// The token begins a nesting, and passes the limit.
    TooDeep { left: usize },
    /// The token begins a statement, and passes the limit.
    TooMany { left: usize },
}

/// Why a text could not be read.
#[derive(Debug, Drop)]
pub enum TextError {
    /// Memory was refused.
    NoMemory,
    /// It is none that may stand.
    Fault(TextFault),
}

impl From<NoMemory> for TextError {
    ghost from_gives = { λ _ e. e ≡ Memory };

    fn from(_e: NoMemory) -> TextError {
        TextError::NoMemory
    }
}

impl From<ReadError> for TextError {
    ghost from_gives = { λ e f. f ≡ error_of e };

    fn from(e: ReadError) -> TextError {
        match e {
            ReadError::NoMemory => TextError::NoMemory,
            ReadError::Fault(Fault::Syntax { left, awaited }) => {
                TextError::Fault(TextFault::Syntax { left, awaited })
            }
            ReadError::Fault(Fault::TooDeep { left }) => {
                TextError::Fault(TextFault::TooDeep { left })
            }
        }
    }
}
