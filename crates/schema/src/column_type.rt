//! The types that a schema names.
ghost use Rattle.std.specs.Prelude.{◌≡◌};
ghost use Rattle.schema.specs.Types.{type_named, kind_of, is_serial, may_be_key};

use pg_values::ColType;

/// A type of a column as a schema names it.
#[derive(Clone, Copy, PartialEq, Eq)]
pub enum ColumnType {
    Bool,
    Int4,
    Int8,
    Text,
    Moment,
    /// Numbers of its own, as int4.
    Serial,
    /// Numbers of its own, as int8.
    BigSerial,
}

/// The type that a name without quotes names.
pub(crate) fn type_named(name: &str) -> Option<ColumnType>
    ensures { result ≡ type_named name.now }
{
    if name == "bool" || name == "boolean" {
        return Some(ColumnType::Bool);
    }
    if name == "int4" || name == "int" || name == "integer" {
        return Some(ColumnType::Int4);
    }
    if name == "int8" || name == "bigint" {
        return Some(ColumnType::Int8);
    }
    if name == "text" {
        return Some(ColumnType::Text);
    }
    if name == "serial" {
        return Some(ColumnType::Serial);
    }
    if name == "bigserial" {
        return Some(ColumnType::BigSerial);
    }
    None
}

/// The type of its values.
pub(crate) fn kind_of(column_type: ColumnType) -> ColType
    ensures { result ≡ kind_of column_type }
{
    match column_type {
        ColumnType::Bool => ColType::Bool,
        ColumnType::Int4 | ColumnType::Serial => ColType::Int4,
        ColumnType::Int8 | ColumnType::BigSerial => ColType::Int8,
        ColumnType::Text => ColType::Text,
        ColumnType::Moment => ColType::Moment,
    }
}

pub(crate) fn is_serial(column_type: ColumnType) -> bool
    ensures { result ≡ is_serial column_type }
{
    match column_type {
        ColumnType::Serial | ColumnType::BigSerial => true,
        ColumnType::Bool
        | ColumnType::Int4
        | ColumnType::Int8
        | ColumnType::Text
        | ColumnType::Moment => false,
    }
}

/// Whether a column of the type may be a key.
pub(crate) fn may_be_key(column_type: ColumnType) -> bool
    ensures { result ≡ may_be_key column_type }
{
    match column_type {
        ColumnType::Bool | ColumnType::Moment => false,
        ColumnType::Int4
        | ColumnType::Int8
        | ColumnType::Text
        | ColumnType::Serial
        | ColumnType::BigSerial => true,
    }
}
