//! Whether each node of an expression has the type that the rules give it, and parts enough.
ghost use Rattle.std.specs.Prelude.{◌≡◌, ◌&&◌};
ghost use Rattle.std.specs.List.{list_all};
ghost use Rattle.typed_sql.specs.declared.asks.Takes.TheVariants.{Any, Whole};
ghost use Rattle.checked_sql.specs.Sound.{form_in, has_one, has_two, is_column, is_parameter, is_sound, names_of, stands};

use crate::kinds::{kind_of_product, kind_of_sum, same_kind, takes};
use crate::names::Names;
use crate::values::is_value;
use pg_values::ColType;
use pool_base::{Boxed, List};
use typed_sql::{Takes, TypedExpr, TypedForm, TypedProductPart, TypedSumPart};

/// Whether there is a column of that number, from 0, and type.
fn is_column(names: &Names<'_>, number: u8, kind: ColType) -> bool
    ensures { result ≡ is_column (names_of names.now).columns number kind }
{
    match names.columns.get(number as usize) {
        Some(column) => same_kind(kind, column.kind),
        None => false,
    }
}

/// Whether there is a parameter of that number, from 1, and type.
fn is_parameter(names: &Names<'_>, number: u32, kind: ColType) -> bool
    ensures { result ≡ is_parameter (names_of names.now).kinds number kind }
{
    if number == 0 {
        return false;
    }
    match names.kinds.get(number as usize - 1) {
        Some(known) => same_kind(kind, *known),
        None => false,
    }
}

/// Whether the form of an expression gives its type.
#[tactic(auto, using(crate::proofs::Forms::given))]
fn gives(names: &Names<'_>, expr: &TypedExpr) -> bool
    ensures { result ≡ (form_in (names_of names.now) expr.now.form).gives expr.now.kind }
{
    let kind = expr.kind;
    match &expr.form {
        TypedForm::Or(_) => same_kind(ColType::Bool, kind),
        TypedForm::And(_) => same_kind(ColType::Bool, kind),
        TypedForm::Not(_) => same_kind(ColType::Bool, kind),
        TypedForm::IsNull { .. } => same_kind(ColType::Bool, kind),
        TypedForm::Compare(_, _, _) => same_kind(ColType::Bool, kind),
        TypedForm::Member { .. } => same_kind(ColType::Bool, kind),
        TypedForm::Concat(_) => same_kind(ColType::Text, kind),
        TypedForm::Sum(first, parts) => {
            same_kind(kind_of_sum(first.get().kind, parts.as_slice()), kind)
        }
        TypedForm::Product(first, parts) => {
            same_kind(kind_of_product(first.get().kind, parts.as_slice()), kind)
        }
        TypedForm::Minus(of) => same_kind(of.get().kind, kind),
        TypedForm::Literal(value) => is_value(kind, value),
        TypedForm::Param(number) => is_parameter(names, *number, kind),
        TypedForm::Column(number) => is_column(names, *number, kind),
        TypedForm::CurrentTimestamp => same_kind(ColType::Moment, kind),
        TypedForm::Now => same_kind(ColType::Moment, kind),
        TypedForm::TransactionTimestamp => same_kind(ColType::Moment, kind),
    }
}

/// Whether each node of an expression has the type that the rules give it, and parts enough.
#[cycle(nodes)]
#[tactic(auto, using(crate::proofs::Forms::sound_by_form))]
pub(crate) fn is_sound(names: &Names<'_>, expr: &TypedExpr) -> bool
    ensures { result ≡ is_sound (names_of names.now) expr.now }
{
    gives(names, expr) && fits(names, &expr.form)
}

/// Whether the parts of a form may stand where they stand, and there are as many as it has.
#[cycle(nodes)]
#[tactic(auto, using(crate::proofs::Forms::fitting))]
fn fits(names: &Names<'_>, form: &TypedForm) -> bool
    ensures { result ≡ (form_in (names_of names.now) form.now).fits }
{
    match form {
        TypedForm::Or(parts) => are_joined(names, Takes::Like(ColType::Bool), parts),
        TypedForm::And(parts) => are_joined(names, Takes::Like(ColType::Bool), parts),
        TypedForm::Not(of) => stands(names, Takes::Like(ColType::Bool), of.get()),
        TypedForm::IsNull { of, tests } => is_tested(names, of, tests),
        TypedForm::Compare(_, left, right) => {
            let like = Takes::Like(left.get().kind);
            stands(names, Takes::Any, left.get()) && stands(names, like, right.get())
        }
        TypedForm::Member { of, list, .. } => {
            let like = Takes::Like(of.get().kind);
            stands(names, Takes::Any, of.get()) && are_listed(names, like, list)
        }
        TypedForm::Concat(parts) => are_joined(names, Takes::Like(ColType::Text), parts),
        TypedForm::Sum(first, parts) => {
            stands(names, Takes::Whole, first.get()) && are_summands(names, parts)
        }
        TypedForm::Product(first, parts) => {
            stands(names, Takes::Whole, first.get()) && are_factors(names, parts)
        }
        TypedForm::Minus(of) => stands(names, Takes::Whole, of.get()),
        TypedForm::Literal(_)
        | TypedForm::Param(_)
        | TypedForm::Column(_)
        | TypedForm::CurrentTimestamp
        | TypedForm::Now
        | TypedForm::TransactionTimestamp => true,
    }
}

/// The operand of IS NULL, with one test or more behind it.
#[cycle(nodes)]
fn is_tested(names: &Names<'_>, of: &Boxed<TypedExpr>, tests: &List<bool>) -> bool
    ensures { result ≡ (has_one tests.now && stands (names_of names.now) Any of.now) }
{
    match tests.as_slice() {
        [] => false,
        [_, ..] => stands(names, Takes::Any, of.get()),
    }
}

/// Parts with one operator between them: two or more, where such types may stand.
#[cycle(nodes)]
fn are_joined(names: &Names<'_>, which: Takes, parts: &List<TypedExpr>) -> bool
    ensures { result
        ≡ (has_two parts.now && list_all (stands (names_of names.now) which) parts.now) }
{
    match parts.as_slice() {
        [] => false,
        [_] => false,
        [_, _, ..] => all_stand(names, which, parts.as_slice()),
    }
}

/// The entries of a list: one or more, where such types may stand.
#[cycle(nodes)]
fn are_listed(names: &Names<'_>, which: Takes, list: &List<TypedExpr>) -> bool
    ensures { result
        ≡ (has_one list.now && list_all (stands (names_of names.now) which) list.now) }
{
    match list.as_slice() {
        [] => false,
        [_, ..] => all_stand(names, which, list.as_slice()),
    }
}

/// Further summands: one or more.
#[cycle(nodes)]
fn are_summands(names: &Names<'_>, parts: &List<TypedSumPart>) -> bool
    ensures { result ≡ (has_one parts.now
        && list_all (λ s. stands (names_of names.now) Whole s.part) parts.now) }
{
    match parts.as_slice() {
        [] => false,
        [_, ..] => summands_stand(names, parts.as_slice()),
    }
}

/// Further factors: one or more.
#[cycle(nodes)]
fn are_factors(names: &Names<'_>, parts: &List<TypedProductPart>) -> bool
    ensures { result ≡ (has_one parts.now
        && list_all (λ f. stands (names_of names.now) Whole f.part) parts.now) }
{
    match parts.as_slice() {
        [] => false,
        [_, ..] => factors_stand(names, parts.as_slice()),
    }
}

/// An expression where such types may stand.
#[cycle(nodes)]
pub(crate) fn stands(names: &Names<'_>, which: Takes, expr: &TypedExpr) -> bool
    ensures { result ≡ stands (names_of names.now) which expr.now }
{
    takes(which, expr.kind) && is_sound(names, expr)
}

/// Expressions where such types may stand.
#[cycle(nodes)]
fn all_stand(names: &Names<'_>, which: Takes, parts: &[TypedExpr]) -> bool
    ensures { result ≡ list_all (stands (names_of names.now) which) parts.now }
{
    for part in parts {
        if !stands(names, which, part) {
            return false;
        }
    }
    true
}

#[cycle(nodes)]
fn summands_stand(names: &Names<'_>, parts: &[TypedSumPart]) -> bool
    ensures { result ≡ list_all (λ s. stands (names_of names.now) Whole s.part) parts.now }
{
    for part in parts {
        if !stands(names, Takes::Whole, &part.part) {
            return false;
        }
    }
    true
}

#[cycle(nodes)]
fn factors_stand(names: &Names<'_>, parts: &[TypedProductPart]) -> bool
    ensures { result ≡ list_all (λ f. stands (names_of names.now) Whole f.part) parts.now }
{
    for part in parts {
        if !stands(names, Takes::Whole, &part.part) {
            return false;
        }
    }
    true
}
