//! The types of values, and their numbers in the protocol.
ghost use Rattle.std.specs.Prelude.{◌≡◌, ◌≢◌, IfSome, IfNone};
ghost use Rattle.pg_values.specs.declared.col_type.ColType.{ColType};
ghost use Rattle.pg_values.specs.Kinds.{oid_number};

/// The type of a column or of a parameter.
#[derive(Clone, Copy, PartialEq, Eq)]
pub enum ColType {
    Bool,
    Int4,
    Int8,
    Text,
    /// A moment: `timestamptz`.
    Moment,
}

/// The number of a type.
///
/// Source: PostgreSQL, "pg_type", the rows `bool`, `int8`, `int4`, `text` and `timestamptz`.
pub fn oid_of(kind: ColType) -> u32
    ensures { result ≡ oid_number kind }
{
    match kind {
        ColType::Bool => 16,
        ColType::Int8 => 20,
        ColType::Int4 => 23,
        ColType::Text => 25,
        ColType::Moment => 1184,
    }
}

/// The type of that number, if it is one of the five.
pub fn kind_of(oid: u32) -> Option<ColType>
    ensures found { IfSome result (λ kind. oid_number kind ≡ oid) }
    ensures none { IfNone result ((kind : ColType) → oid_number kind ≢ oid) }
{
    match oid {
        16 => Some(ColType::Bool),
        20 => Some(ColType::Int8),
        23 => Some(ColType::Int4),
        25 => Some(ColType::Text),
        1184 => Some(ColType::Moment),
        _ => None,
    }
}
