//! Expressions as they stand in a statement.
ghost use Rattle.std.specs.Prelude.{◌≡◌, IfOk, map, true};
ghost use Rattle.std.specs.List.{list_all};
ghost use Rattle.std.specs.Option.{option_map};
ghost use Rattle.checked_print.specs.Ranges.{is_held_expr, is_held_option};
ghost use Rattle.checked_print.specs.Spelled.{at, spelled, spelled_factor, spelled_summand, spelled_whole, spelling};

use crate::place::Place;
use crate::speller::{Speller, name_at};
use crate::value::value_at;
use pool_base::{Boxed, List, NoMemory};
use sql_tree::{Expr, ProductPart, SumPart};
use typed_sql::{TypedExpr, TypedForm, TypedProductPart, TypedSumPart};

/// An expression at a place.
#[cycle(spelling)]
#[tactic(auto, using(crate::proofs::Places::forms, crate::proofs::Held::held))]
fn spelled_at(speller: &Speller<'_>, place: Place, expr: &TypedExpr) -> Result<Expr, NoMemory>
    ensures made { IfOk result (λ e. e ≡ at place (spelling speller.now.columns.now expr.now)) }
    ensures held { IfOk result (λ made. is_held_expr expr.now ≡ true) }
{
    match &expr.form {
        TypedForm::Or(parts) => Ok(Expr::Or(spelled_all(speller, parts)?)),
        TypedForm::And(parts) => Ok(Expr::And(spelled_all(speller, parts)?)),
        TypedForm::Not(of) => Ok(Expr::Not(part_box(speller, of)?)),
        TypedForm::IsNull { of, tests } => Ok(Expr::IsNull {
            of: part_box(speller, of)?,
            tests: copied(speller, tests)?,
        }),
        TypedForm::Compare(how, left, right) => Ok(Expr::Compare(
            *how,
            part_box(speller, left)?,
            part_box(speller, right)?,
        )),
        TypedForm::Member { of, negated, list } => Ok(Expr::Member {
            of: part_box(speller, of)?,
            negated: *negated,
            list: spelled_all(speller, list)?,
        }),
        TypedForm::Concat(parts) => Ok(Expr::Concat(spelled_all(speller, parts)?)),
        TypedForm::Sum(first, parts) => Ok(Expr::Sum(
            part_box(speller, first)?,
            summands(speller, parts)?,
        )),
        TypedForm::Product(first, parts) => Ok(Expr::Product(
            part_box(speller, first)?,
            factors(speller, parts)?,
        )),
        TypedForm::Minus(of) => Ok(Expr::Minus(negated_box(speller, of)?)),
        TypedForm::Literal(value) => value_at(speller.alloc, place, value),
        TypedForm::Param(number) => Ok(Expr::Param(*number)),
        TypedForm::Column(number) => Ok(Expr::Column {
            qualifier: None,
            name: name_at(speller, *number)?,
        }),
        TypedForm::CurrentTimestamp => Ok(Expr::CurrentTimestamp),
        TypedForm::Now => Ok(Expr::Now),
        TypedForm::TransactionTimestamp => Ok(Expr::TransactionTimestamp),
    }
}

fn copied(speller: &Speller<'_>, tests: &List<bool>) -> Result<List<bool>, NoMemory>
    ensures { IfOk result (λ made. made ≡ tests.now) }
{
    List::from_slice(speller.alloc, tests.as_slice())
}

#[cycle(spelling)]
fn part_box(speller: &Speller<'_>, of: &Boxed<TypedExpr>) -> Result<Boxed<Expr>, NoMemory>
    ensures made { IfOk result (λ e. e ≡ spelled speller.now.columns.now of.now) }
    ensures held { IfOk result (λ made. is_held_expr of.now ≡ true) }
{
    Boxed::new(speller.alloc, spelled_at(speller, Place::Part, of.get())?)
}

#[cycle(spelling)]
fn negated_box(speller: &Speller<'_>, of: &Boxed<TypedExpr>) -> Result<Boxed<Expr>, NoMemory>
    ensures made { IfOk result (λ e. e ≡ (spelling speller.now.columns.now of.now).negated) }
    ensures held { IfOk result (λ made. is_held_expr of.now ≡ true) }
{
    Boxed::new(
        speller.alloc,
        spelled_at(speller, Place::Negated, of.get())?,
    )
}

#[cycle(spelling)]
fn spelled_all(speller: &Speller<'_>, parts: &List<TypedExpr>) -> Result<List<Expr>, NoMemory>
    ensures made { IfOk result (λ made. made ≡ map (spelled speller.now.columns.now) parts.now) }
    ensures held { IfOk result (λ made. list_all is_held_expr parts.now ≡ true) }
{
    let mut made = List::new(speller.alloc);
    for part in parts.as_slice() {
        made.push(spelled_at(speller, Place::Part, part)?)?;
    }
    Ok(made)
}

#[cycle(spelling)]
fn summands(speller: &Speller<'_>, parts: &List<TypedSumPart>) -> Result<List<SumPart>, NoMemory>
    ensures made { IfOk result (λ made. made
        ≡ map (spelled_summand speller.now.columns.now) parts.now) }
    ensures held { IfOk result (λ made. list_all (λ s. is_held_expr s.part) parts.now ≡ true) }
{
    let mut made = List::new(speller.alloc);
    for part in parts.as_slice() {
        made.push(SumPart {
            minus: part.minus,
            part: spelled_at(speller, Place::Part, &part.part)?,
        })?;
    }
    Ok(made)
}

#[cycle(spelling)]
fn factors(
    speller: &Speller<'_>,
    parts: &List<TypedProductPart>,
) -> Result<List<ProductPart>, NoMemory>
    ensures made { IfOk result (λ made. made
        ≡ map (spelled_factor speller.now.columns.now) parts.now) }
    ensures held { IfOk result (λ made. list_all (λ f. is_held_expr f.part) parts.now ≡ true) }
{
    let mut made = List::new(speller.alloc);
    for part in parts.as_slice() {
        made.push(ProductPart {
            sign: part.sign,
            part: spelled_at(speller, Place::Part, &part.part)?,
        })?;
    }
    Ok(made)
}

/// An item or a part of another expression.
pub(crate) fn spelled(speller: &Speller<'_>, expr: &TypedExpr) -> Result<Expr, NoMemory>
    ensures made { IfOk result (λ e. e ≡ spelled speller.now.columns.now expr.now) }
    ensures held { IfOk result (λ made. is_held_expr expr.now ≡ true) }
{
    spelled_at(speller, Place::Part, expr)
}

/// A whole cell, a value of SET or a limit.
pub(crate) fn spelled_whole(speller: &Speller<'_>, expr: &TypedExpr) -> Result<Expr, NoMemory>
    ensures made { IfOk result (λ e. e ≡ spelled_whole speller.now.columns.now expr.now) }
    ensures held { IfOk result (λ made. is_held_expr expr.now ≡ true) }
{
    spelled_at(speller, Place::Whole, expr)
}

/// A filter, where there is one.
pub(crate) fn some_spelled(
    speller: &Speller<'_>,
    expr: &Option<TypedExpr>,
) -> Result<Option<Expr>, NoMemory>
    ensures made { IfOk result (λ made. made
        ≡ option_map (spelled speller.now.columns.now) expr.now) }
    ensures held { IfOk result (λ made. is_held_option expr.now ≡ true) }
{
    match expr {
        Some(expr) => Ok(Some(spelled(speller, expr)?)),
        None => Ok(None),
    }
}

/// A limit, where there is one.
pub(crate) fn some_whole(
    speller: &Speller<'_>,
    expr: &Option<TypedExpr>,
) -> Result<Option<Expr>, NoMemory>
    ensures made { IfOk result (λ made. made
        ≡ option_map (spelled_whole speller.now.columns.now) expr.now) }
    ensures held { IfOk result (λ made. is_held_option expr.now ≡ true) }
{
    match expr {
        Some(expr) => Ok(Some(spelled_whole(speller, expr)?)),
        None => Ok(None),
    }
}
