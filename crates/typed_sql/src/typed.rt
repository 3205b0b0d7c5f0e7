//! Expressions whose types are known.
use pg_values::{ColType, Value};
use pool_base::{Boxed, List};
use sql_tree::{Comparison, ProductSign};

/// An expression and the type of its values.
#[cycle(typed)]
#[derive(PartialEq, Eq, Drop)]
pub struct TypedExpr {
    pub kind: ColType,
    pub form: TypedForm,
}

/// An expression by its form. A chain of one operator is one list, taken from the left.
#[cycle(typed)]
#[derive(PartialEq, Eq, Drop)]
pub enum TypedForm {
    /// Parts with OR between them, two or more.
    Or(List<TypedExpr>),
    /// Parts with AND between them, two or more.
    And(List<TypedExpr>),
    Not(Boxed<TypedExpr>),
    /// Tests behind their operand, one or more: true for IS NOT NULL, false for IS NULL.
    IsNull {
        of: Boxed<TypedExpr>,
        tests: List<bool>,
    },
    Compare(Comparison, Boxed<TypedExpr>, Boxed<TypedExpr>),
    /// IN, or NOT IN, and a list of one or more.
    Member {
        of: Boxed<TypedExpr>,
        negated: bool,
        list: List<TypedExpr>,
    },
    /// Parts with `||` between them, two or more.
    Concat(List<TypedExpr>),
    /// The first summand, and one or more further ones.
    Sum(Boxed<TypedExpr>, List<TypedSumPart>),
    /// The first factor, and one or more further ones.
    Product(Boxed<TypedExpr>, List<TypedProductPart>),
    Minus(Boxed<TypedExpr>),
    Literal(Value),
    /// A parameter by its number, from 1 on.
    Param(u32),
    /// A column of the statement's table by its number, from 0 on.
    Column(u8),
    CurrentTimestamp,
    Now,
    TransactionTimestamp,
}

/// A further summand and its sign.
#[cycle(typed)]
#[derive(PartialEq, Eq, Drop)]
pub struct TypedSumPart {
    pub minus: bool,
    pub part: TypedExpr,
}

/// A further factor and its sign.
#[cycle(typed)]
#[derive(PartialEq, Eq, Drop)]
pub struct TypedProductPart {
    pub sign: ProductSign,
    pub part: TypedExpr,
}
