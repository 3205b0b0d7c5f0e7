//! The tokens that begin a nesting.

/// A function without arguments.
#[derive(Clone, Copy, PartialEq, Eq)]
pub enum Function {
    /// `now()`
    Now,
    /// `transaction_timestamp()`
    TransactionTimestamp,
}

/// A token that begins a nesting of an expression.
#[derive(Clone, Copy, PartialEq, Eq)]
pub enum Opening {
    /// A unary `-`.
    Minus,
    /// NOT before its operand.
    Not,
    /// `(` before an expression.
    Parenthesis,
    /// `(` behind the name of a function.
    Call(Function),
}
