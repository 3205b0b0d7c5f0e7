//! Statements and their parts.
use crate::expr::Expr;
use pool_base::{List, Text};

/// A statement.
#[derive(PartialEq, Eq, Drop)]
pub enum Statement {
    /// SELECT.
    Select(Select),
    /// INSERT.
    Insert(Insert),
    /// UPDATE.
    Update(Update),
    /// DELETE.
    Delete(Delete),
    /// BEGIN, or START TRANSACTION.
    Begin,
    /// COMMIT, or END.
    Commit,
    /// ROLLBACK, or ABORT.
    Rollback,
    /// `SHOW pool_nodes`
    ShowNodes,
    /// `PGPOOL RECOVER` and a backend's number.
    Recover(u8),
}

/// What a SELECT gives, from which table, which rows, in which order, how many.
#[derive(PartialEq, Eq, Drop)]
pub struct Select {
    pub list: SelectList,
    pub table: Option<Text>,
    pub filter: Option<Expr>,
    pub order: List<OrderItem>,
    pub limit: Option<Expr>,
    pub for_update: bool,
}

/// Rows that go into a table. Without columns, a row has a cell for each column of the table.
#[derive(PartialEq, Eq, Drop)]
pub struct Insert {
    pub table: Text,
    pub columns: Option<List<Text>>,
    pub rows: List<List<Cell>>,
}

/// Values that columns get in the rows of a filter.
#[derive(PartialEq, Eq, Drop)]
pub struct Update {
    pub table: Text,
    pub sets: List<SetItem>,
    pub filter: Option<Expr>,
}

/// The rows of a filter, which leave a table.
#[derive(PartialEq, Eq, Drop)]
pub struct Delete {
    pub table: Text,
    pub filter: Option<Expr>,
}

/// What a SELECT gives.
#[derive(PartialEq, Eq, Drop)]
pub enum SelectList {
    /// `*`: all columns.
    Star,
    /// `count(*)`: the number of rows.
    Count,
    /// One expression or more.
    Items(List<SelectItem>),
}

/// An expression, and the name that AS gives it.
#[derive(PartialEq, Eq, Drop)]
pub struct SelectItem {
    pub expr: Expr,
    pub name: Option<Text>,
}

/// A column that rows are ordered by, and whether its values fall.
#[derive(PartialEq, Eq, Drop)]
pub struct OrderItem {
    pub qualifier: Option<Text>,
    pub column: Text,
    pub falling: bool,
}

/// A column and its new value.
#[derive(PartialEq, Eq, Drop)]
pub struct SetItem {
    pub column: Text,
    pub expr: Expr,
}

/// A cell of a row that goes into a table.
#[derive(PartialEq, Eq, Drop)]
pub enum Cell {
    /// DEFAULT: what the column is filled with.
    Fill,
    /// The value of an expression.
    Given(Expr),
}
