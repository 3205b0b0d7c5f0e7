//! What a text is made of.
use crate::{Mark, Word};
use pool_base::Text;

/// A token.
#[derive(PartialEq, Eq, Drop)]
pub enum Token {
    Word(Word),
    Mark(Mark),
    Name(Name),
    /// A whole number, 0 to 9223372036854775807.
    Number(i64),
    /// The whole number 9223372036854775808.
    Least,
    /// The inside of a string, a doubled quote being one.
    Str(Text),
    /// A parameter, 1 to 1000.
    Param(u32),
    Fault(TokenFault),
}

/// A name.
#[derive(PartialEq, Eq, Drop)]
pub struct Name {
    /// Without quotes in lower case; in quotes as it stands there, a doubled quote being one.
    pub text: Text,
    pub quoted: bool,
}

/// What no text of the grammar has. It ends the list of tokens.
#[derive(Debug, PartialEq, Eq, Drop)]
pub enum TokenFault {
    /// A number with a point or an exponent.
    Fraction,
    /// A whole number above 9223372036854775808.
    OutOfRange,
    /// A run of the bytes `: ~ ! @ # ^ & | ? [ ]` that is no mark: its first 63 bytes.
    Run(Text),
    /// A byte that begins no token, a zero byte wherever it stands, a quoted name that is empty, or
    /// a string, quoted name or comment that does not end.
    Bad,
    /// A name of more than 63 bytes.
    LongName,
    /// A parameter above 1000.
    LargeParam,
    /// The 65537th token.
    TooMany,
}

/// A token and where it stands.
#[derive(PartialEq, Eq, Drop)]
pub struct Placed {
    pub token: Token,
    /// The byte at which the token begins, from 0.
    pub place: u32,
}
