//! Expressions as they are written, without their parentheses.
use pool_base::{Boxed, List, Text};

/// How two values are compared.
#[derive(Clone, Copy, PartialEq, Eq)]
pub enum Comparison {
    /// `=`
    Equal,
    /// `<>` or `!=`
    Unequal,
    /// `<`
    Less,
    /// `<=`
    AtMost,
    /// `>`
    Greater,
    /// `>=`
    AtLeast,
}

/// How a further factor is joined.
#[derive(Clone, Copy, PartialEq, Eq)]
pub enum ProductSign {
    /// `*`
    Times,
    /// `/`
    Over,
    /// `%`
    Rest,
}

/// An expression. A chain of one operator is one list, taken from the left.
#[cycle(expr)]
#[derive(PartialEq, Eq, Drop)]
pub enum Expr {
    /// Parts with OR between them, two or more.
    Or(List<Expr>),
    /// Parts with AND between them, two or more.
    And(List<Expr>),
    /// NOT and its operand.
    Not(Boxed<Expr>),
    /// Tests behind their operand, one or more: true for IS NOT NULL, false for IS NULL.
    IsNull {
        of: Boxed<Expr>,
        tests: List<bool>,
    },
    /// Two values compared.
    Compare(Comparison, Boxed<Expr>, Boxed<Expr>),
    /// IN, or NOT IN, and a list of one or more.
    Member {
        of: Boxed<Expr>,
        negated: bool,
        list: List<Expr>,
    },
    /// Parts with `||` between them, two or more.
    Concat(List<Expr>),
    /// The first summand, and one or more further ones.
    Sum(Boxed<Expr>, List<SumPart>),
    /// The first factor, and one or more further ones.
    Product(Boxed<Expr>, List<ProductPart>),
    /// A minus in front of its operand.
    Minus(Boxed<Expr>),
    /// A whole number: at least 0, or the least int8.
    Int(i64),
    /// A string.
    Str(Text),
    /// TRUE or FALSE.
    Bool(bool),
    /// NULL.
    Null,
    /// A parameter by its number, from 1 on.
    Param(u32),
    /// A column, which a table's name may stand before.
    Column {
        qualifier: Option<Text>,
        name: Text,
    },
    /// CURRENT_TIMESTAMP.
    CurrentTimestamp,
    /// `now()`
    Now,
    /// `transaction_timestamp()`
    TransactionTimestamp,
    /// TIMESTAMPTZ and its string.
    Moment(Text),
}

/// A further summand and its sign.
#[cycle(expr)]
#[derive(PartialEq, Eq, Drop)]
pub struct SumPart {
    pub minus: bool,
    pub part: Expr,
}

/// A further factor and its sign.
#[cycle(expr)]
#[derive(PartialEq, Eq, Drop)]
pub struct ProductPart {
    pub sign: ProductSign,
    pub part: Expr,
}
