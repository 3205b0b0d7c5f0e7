//! Statements that were checked against a catalogue.
use pg_values::ColType;
use pool_base::{List, Text};
use typed_sql::TypedExpr;

/// A checked statement, the columns of its result, and the types of its parameters.
#[derive(PartialEq, Eq, Drop)]
pub struct Checked {
    pub body: CheckedBody,
    pub columns: List<ColumnDesc>,
    pub kinds: List<ColType>,
}

/// A column of a result.
#[derive(PartialEq, Eq, Drop)]
pub struct ColumnDesc {
    pub name: Text,
    pub kind: ColType,
}

/// What a statement does, over the tables and columns by their numbers.
#[derive(PartialEq, Eq, Drop)]
pub enum CheckedBody {
    /// SELECT.
    Read(CheckedRead),
    /// INSERT.
    Insert(CheckedInsert),
    /// UPDATE.
    Change(CheckedChange),
    /// DELETE.
    Remove(CheckedRemove),
}

/// A SELECT: the list, or the count of the rows.
#[derive(PartialEq, Eq, Drop)]
pub struct CheckedRead {
    pub table: Option<u8>,
    pub count: bool,
    pub list: List<TypedExpr>,
    pub filter: Option<TypedExpr>,
    /// The last is the table's key, rising.
    pub order: List<OrderKey>,
    pub limit: Option<TypedExpr>,
    pub for_update: bool,
}

/// An INSERT: each row has a cell for each column of the table.
#[derive(PartialEq, Eq, Drop)]
pub struct CheckedInsert {
    pub table: u8,
    pub rows: List<List<TypedCell>>,
}

/// An UPDATE.
#[derive(PartialEq, Eq, Drop)]
pub struct CheckedChange {
    pub table: u8,
    pub sets: List<TypedSet>,
    pub filter: Option<TypedExpr>,
}

/// A DELETE.
#[derive(PartialEq, Eq, Drop)]
pub struct CheckedRemove {
    pub table: u8,
    pub filter: Option<TypedExpr>,
}

/// A column that rows are ordered by, and whether its values fall.
#[derive(Clone, Copy, PartialEq, Eq)]
pub struct OrderKey {
    pub column: u8,
    pub falling: bool,
}

/// A cell of a row that goes into a table.
#[derive(PartialEq, Eq, Drop)]
pub enum TypedCell {
    /// The next number of the table.
    Serial,
    /// The moment of the transaction.
    Now,
    /// The value of an expression.
    Given(TypedExpr),
}

/// A column and its new value.
#[derive(PartialEq, Eq, Drop)]
pub struct TypedSet {
    pub column: u8,
    pub expr: TypedExpr,
}
