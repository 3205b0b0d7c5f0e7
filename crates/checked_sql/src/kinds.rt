//! Which types fit.
ghost use Rattle.std.specs.Prelude.{◌≡◌, map};
ghost use Rattle.typed_sql.specs.Places.{are_alike, is_whole, same_kind, sum_kind, takes};
ghost use Rattle.checked_sql.specs.Sound.{chain_kind};

use pg_values::ColType;
use typed_sql::{Takes, TypedProductPart, TypedSumPart};

/// Whether the types are one.
pub(crate) fn same_kind(a: ColType, b: ColType) -> bool
    ensures { result ≡ same_kind a b }
{
    match (a, b) {
        (ColType::Bool, ColType::Bool) => true,
        (ColType::Int4, ColType::Int4) => true,
        (ColType::Int8, ColType::Int8) => true,
        (ColType::Text, ColType::Text) => true,
        (ColType::Moment, ColType::Moment) => true,
        _ => false,
    }
}

/// Whether the type is int4 or int8.
fn is_whole(kind: ColType) -> bool
    ensures { result ≡ is_whole kind }
{
    matches!(kind, ColType::Int4 | ColType::Int8)
}

/// Whether the types are one, int4 and int8 counting as one.
fn are_alike(a: ColType, b: ColType) -> bool
    ensures { result ≡ are_alike a b }
{
    if is_whole(a) {
        is_whole(b)
    } else {
        same_kind(a, b)
    }
}

/// Whether a type may stand at a place.
pub(crate) fn takes(which: Takes, kind: ColType) -> bool
    ensures { result ≡ takes which kind }
{
    match which {
        Takes::Any => true,
        Takes::Whole => is_whole(kind),
        Takes::Like(other) => are_alike(other, kind),
    }
}

/// The type of what arithmetic gives.
fn sum_kind(a: ColType, b: ColType) -> ColType
    ensures { result ≡ sum_kind a b }
{
    match (a, b) {
        (ColType::Int4, ColType::Int4) => ColType::Int4,
        _ => ColType::Int8,
    }
}

/// The type of a sum, whose first summand has this type.
pub(crate) fn kind_of_sum(first: ColType, parts: &[TypedSumPart]) -> ColType
    ensures { result ≡ chain_kind first (map (λ s. s.part.kind) parts.now) }
{
    let mut kind = first;
    for part in parts {
        kind = sum_kind(kind, part.part.kind);
    }
    kind
}

/// The type of a product, whose first factor has this type.
pub(crate) fn kind_of_product(first: ColType, parts: &[TypedProductPart]) -> ColType
    ensures { result ≡ chain_kind first (map (λ f. f.part.kind) parts.now) }
{
    let mut kind = first;
    for part in parts {
        kind = sum_kind(kind, part.part.kind);
    }
    kind
}
