//! What the names in an expression stand for.
use pg_values::Value;

/// What the names in an expression stand for.
///
/// Units: `moment` is in microseconds since 2000-01-01 00:00 UTC.
#[derive(Clone, Copy)]
pub struct Around<'a> {
    /// The cells of the row, by the numbers of their columns. A column that is not there is Null.
    pub row: &'a [Value],
    /// The values of the parameters, the first of which has the number 1.
    pub parameters: &'a [Value],
    /// The moment of the transaction.
    pub moment: i64,
}
