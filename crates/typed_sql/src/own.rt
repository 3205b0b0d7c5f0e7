//! The type that an expression has of itself.
ghost use Rattle.std.specs.Prelude.{◌≡◌, ◌∷◌, map};
ghost use Rattle.typed_sql.specs.Own.{own, own_kind, chained_kind, first_kind, minus_kind};
ghost use Rattle.typed_sql.specs.Steps.{known_kind};
ghost use Rattle.typed_sql.specs.Typing.{own_of_first};
ghost use Rattle.typed_sql.specs.Meaning.{scope_of};

use crate::kinds::{joined_kind, number_kind};
use crate::scope::Scope;
use pg_values::ColType;
use sql_tree::{Expr, ProductPart, SumPart};

/// The type of a parameter, from 1, if it is known.
pub(crate) fn known_kind(number: u32, known: &[Option<ColType>]) -> Option<ColType>
    ensures { result ≡ known_kind number known.now }
{
    if number == 0 {
        return None;
    }
    match known.get(number as usize - 1) {
        Some(kind) => *kind,
        None => None,
    }
}

/// Whether the expression is the number 2147483648, which with a minus in front of it is int4.
pub(crate) fn is_least_int4(expr: &Expr) -> bool
    ensures { (scope : _) (known : _) → result ≡ (own scope known expr.now).least_int4 }
{
    matches!(expr, Expr::Int(2_147_483_648))
}

/// The type of an expression by itself: a string, NULL and a parameter of which no type is known
/// have
/// none.
#[cycle(own)]
#[tactic(auto, using(crate::proofs::OwnForms::own_forms))]
pub(crate) fn own_kind(scope: &Scope<'_>, known: &[Option<ColType>], expr: &Expr) -> Option<ColType>
    ensures { result ≡ own_kind (scope_of scope.now) known.now expr.now }
{
    match expr {
        Expr::Or(_) | Expr::And(_) | Expr::Not(_) | Expr::IsNull { .. } => Some(ColType::Bool),
        Expr::Compare(_, _, _) | Expr::Member { .. } => Some(ColType::Bool),
        Expr::Concat(_) => Some(ColType::Text),
        Expr::Sum(first, parts) => {
            let kind = own_kind(scope, known, first.get());
            sum_own(scope, known, kind, parts.as_slice())
        }
        Expr::Product(first, parts) => {
            let kind = own_kind(scope, known, first.get());
            product_own(scope, known, kind, parts.as_slice())
        }
        Expr::Minus(of) => Some(minus_own(scope, known, of.get())),
        Expr::Int(number) => Some(number_kind(*number)),
        Expr::Str(_) => None,
        Expr::Bool(_) => Some(ColType::Bool),
        Expr::Null => None,
        Expr::Param(number) => known_kind(*number, known),
        Expr::Column { qualifier, name } => scope.kind_meant(qualifier, name),
        Expr::CurrentTimestamp | Expr::Now | Expr::TransactionTimestamp => Some(ColType::Moment),
        Expr::Moment(_) => Some(ColType::Moment),
    }
}

#[cycle(own)]
fn minus_own(scope: &Scope<'_>, known: &[Option<ColType>], of: &Expr) -> ColType
    ensures { result ≡ minus_kind (own (scope_of scope.now) known.now of.now) }
{
    if is_least_int4(of) {
        return ColType::Int4;
    }
    joined_kind(own_kind(scope, known, of), None)
}

/// The type of a sum whose first summand has this type.
#[cycle(own)]
fn sum_own(
    scope: &Scope<'_>,
    known: &[Option<ColType>],
    first: Option<ColType>,
    parts: &[SumPart],
) -> Option<ColType>
    ensures { result
        ≡ chained_kind first (map (λ s. own_kind (scope_of scope.now) known.now s.part) parts.now) }
{
    let mut kind = first;
    for part in parts {
        kind = Some(joined_kind(kind, own_kind(scope, known, &part.part)));
    }
    kind
}

/// The type of a product whose first factor has this type.
#[cycle(own)]
fn product_own(
    scope: &Scope<'_>,
    known: &[Option<ColType>],
    first: Option<ColType>,
    parts: &[ProductPart],
) -> Option<ColType>
    ensures { result
        ≡ chained_kind first (map (λ f. own_kind (scope_of scope.now) known.now f.part) parts.now) }
{
    let mut kind = first;
    for part in parts {
        kind = Some(joined_kind(kind, own_kind(scope, known, &part.part)));
    }
    kind
}

/// The first type that an operand or an entry of a list has of itself.
pub(crate) fn first_own(
    scope: &Scope<'_>,
    known: &[Option<ColType>],
    of: &Expr,
    entries: &[Expr],
) -> Option<ColType>
    ensures { result ≡ first_kind (own_kind (scope_of scope.now) known.now of.now
        ∷ map (own_kind (scope_of scope.now) known.now) entries.now) }
{
    match own_kind(scope, known, of) {
        Some(kind) => Some(kind),
        None => first_entry(scope, known, entries),
    }
}

/// The first type that an entry of a list has of itself.
fn first_entry(scope: &Scope<'_>, known: &[Option<ColType>], entries: &[Expr]) -> Option<ColType>
    ensures { result ≡ first_kind (map (own_kind (scope_of scope.now) known.now) entries.now) }
{
    for entry in entries {
        if let Some(kind) = own_kind(scope, known, entry) {
            return Some(kind);
        }
    }
    None
}

/// The type that the first of some summands has of itself.
pub(crate) fn first_summand(
    scope: &Scope<'_>,
    known: &[Option<ColType>],
    parts: &[SumPart],
) -> Option<ColType>
    ensures { result ≡ own_of_first (λ s. own_kind (scope_of scope.now)
        known.now s.part) parts.now }
{
    match parts {
        [] => None,
        [part, ..] => own_kind(scope, known, &part.part),
    }
}

/// The type that the first of some factors has of itself.
pub(crate) fn first_factor(
    scope: &Scope<'_>,
    known: &[Option<ColType>],
    parts: &[ProductPart],
) -> Option<ColType>
    ensures { result ≡ own_of_first (λ f. own_kind (scope_of scope.now)
        known.now f.part) parts.now }
{
    match parts {
        [] => None,
        [part, ..] => own_kind(scope, known, &part.part),
    }
}
