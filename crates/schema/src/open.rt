//! A schema as far as it is read: where its reader stands.
use crate::catalogue::{ColumnDef, Fill, TableDef};
use crate::column_type::ColumnType;
use named_list::NamedList;
use pool_base::Text;

/// A column as far as it is read.
#[derive(Drop)]
pub struct OpenColumn {
    /// How many columns stand before it.
    pub number: u8,
    pub name: Text,
    pub kind: ColumnType,
    /// NOT NULL was read.
    pub not_null: bool,
    /// PRIMARY KEY was read.
    pub key: bool,
    /// The DEFAULT, if it was read.
    pub fill: Option<Fill>,
}

/// A table as far as it is read: its whole columns.
#[derive(Drop)]
pub struct OpenTable {
    pub name: Text,
    pub columns: NamedList<ColumnDef>,
    pub key: Option<u8>,
    pub serial: Option<u8>,
}

/// What comes next in a column behind its type.
#[derive(Clone, Copy, PartialEq, Eq)]
pub enum Due {
    /// A part, or the end of the column.
    Part,
    /// The NULL of NOT NULL.
    Null,
    /// The KEY of PRIMARY KEY.
    Key,
    /// The value behind DEFAULT.
    Value,
    /// The number behind a minus.
    Number,
    /// The `(` behind `now`.
    Open,
    /// The `)` behind it.
    Close,
}

/// What comes next.
#[derive(Drop)]
pub enum Place {
    /// CREATE, or the end.
    Create,
    /// TABLE.
    Table,
    /// The name of the table.
    TableName,
    /// The `(` behind the name.
    Columns(Text),
    /// The name of a column.
    ColumnName(OpenTable),
    /// Its type.
    ColumnType {
        table: OpenTable,
        number: u8,
        name: Text,
    },
    /// What stands behind its type.
    Column {
        table: OpenTable,
        column: OpenColumn,
        due: Due,
    },
    /// The `;` behind a table.
    End(TableDef),
}
