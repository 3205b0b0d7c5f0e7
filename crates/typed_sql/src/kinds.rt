//! Which types may stand where, and what arithmetic makes of them.
ghost use Rattle.std.specs.Prelude.{◌≡◌};
ghost use Rattle.typed_sql.specs.Places.{same_kind, is_whole, are_alike, takes, or_text, or_int8, sum_kind, number_kind, asks_bool, asks_text, asks_nothing, asks_limit, asks_column, asks_number, asks_beside, asks_like, asks_entry};
ghost use Rattle.typed_sql.specs.Own.{joined_kind};

use crate::asks::{Asks, Takes};
use pg_values::ColType;

/// Whether the types are one.
fn same_kind(a: ColType, b: ColType) -> bool
    ensures { result ≡ same_kind a b }
{
    match (a, b) {
        (ColType::Bool, ColType::Bool) => true,
        (ColType::Int4, ColType::Int4) => true,
        (ColType::Int8, ColType::Int8) => true,
        (ColType::Text, ColType::Text) => true,
        (ColType::Moment, ColType::Moment) => true,
        _ => false,
    }
}

/// Whether the type is int4 or int8.
pub(crate) fn is_whole(kind: ColType) -> bool
    ensures { result ≡ is_whole kind }
{
    matches!(kind, ColType::Int4 | ColType::Int8)
}

/// Whether the types are one, int4 and int8 counting as one.
fn are_alike(a: ColType, b: ColType) -> bool
    ensures { result ≡ are_alike a b }
{
    if is_whole(a) {
        is_whole(b)
    } else {
        same_kind(a, b)
    }
}

/// Whether the type may stand there.
pub(crate) fn takes(which: Takes, kind: ColType) -> bool
    ensures { result ≡ takes which kind }
{
    match which {
        Takes::Any => true,
        Takes::Whole => is_whole(kind),
        Takes::Like(other) => are_alike(other, kind),
    }
}

/// The type, and text where there is none.
pub fn or_text(kind: Option<ColType>) -> ColType
    ensures { result ≡ or_text kind }
{
    kind.unwrap_or(ColType::Text)
}

/// The type where it is int4 or int8, and else int8.
fn or_int8(kind: Option<ColType>) -> ColType
    ensures { result ≡ or_int8 kind }
{
    match kind {
        Some(kind) if is_whole(kind) => kind,
        _ => ColType::Int8,
    }
}

/// The type of what arithmetic gives.
pub(crate) fn sum_kind(a: ColType, b: ColType) -> ColType
    ensures { result ≡ sum_kind a b }
{
    match (a, b) {
        (ColType::Int4, ColType::Int4) => ColType::Int4,
        _ => ColType::Int8,
    }
}

/// The type of a number and the next, each of which may have none of its own.
pub(crate) fn joined_kind(kind: Option<ColType>, other: Option<ColType>) -> ColType
    ensures { result ≡ joined_kind kind other }
{
    match (kind, other) {
        (None, other) => sum_kind(or_int8(other), or_int8(other)),
        (Some(kind), None) => sum_kind(kind, or_int8(Some(kind))),
        (Some(kind), Some(other)) => sum_kind(kind, other),
    }
}

/// The type of a whole number as it is written.
pub(crate) fn number_kind(number: i64) -> ColType
    ensures { result ≡ number_kind number }
{
    if number >= 0 && number <= 2_147_483_647 {
        ColType::Int4
    } else {
        ColType::Int8
    }
}

/// What an operand of AND, OR and NOT is asked, and a filter.
pub fn asks_bool() -> Asks
    ensures { result ≡ asks_bool }
{
    Asks {
        leaf: ColType::Bool,
        takes: Takes::Like(ColType::Bool),
    }
}

/// What an operand of `||` is asked.
pub(crate) fn asks_text() -> Asks
    ensures { result ≡ asks_text }
{
    Asks {
        leaf: ColType::Text,
        takes: Takes::Like(ColType::Text),
    }
}

/// What an item of a list is asked, and the operand of IS NULL.
pub fn asks_nothing() -> Asks
    ensures { result ≡ asks_nothing }
{
    Asks {
        leaf: ColType::Text,
        takes: Takes::Any,
    }
}

/// What a LIMIT is asked.
pub fn asks_limit() -> Asks
    ensures { result ≡ asks_limit }
{
    Asks {
        leaf: ColType::Int8,
        takes: Takes::Whole,
    }
}

/// What a cell and a new value of a column of this type are asked.
pub fn asks_column(kind: ColType) -> Asks
    ensures { result ≡ asks_column kind }
{
    Asks {
        leaf: kind,
        takes: Takes::Like(kind),
    }
}

/// What an operand of arithmetic is asked beside the other one.
pub(crate) fn asks_number(other: Option<ColType>) -> Asks
    ensures { result ≡ asks_number other }
{
    Asks {
        leaf: or_int8(other),
        takes: Takes::Whole,
    }
}

/// What the left operand of a comparison is asked beside the right one, and the operand of IN.
pub(crate) fn asks_beside(other: Option<ColType>) -> Asks
    ensures { result ≡ asks_beside other }
{
    Asks {
        leaf: or_text(other),
        takes: Takes::Any,
    }
}

/// What the right operand of a comparison is asked behind one of this type.
pub(crate) fn asks_like(kind: ColType) -> Asks
    ensures { result ≡ asks_like kind }
{
    Asks {
        leaf: kind,
        takes: Takes::Like(kind),
    }
}

/// What an entry of IN's list is asked behind an operand of this type.
pub(crate) fn asks_entry(first: Option<ColType>, kind: ColType) -> Asks
    ensures { result ≡ asks_entry first kind }
{
    Asks {
        leaf: or_text(first),
        takes: Takes::Like(kind),
    }
}
