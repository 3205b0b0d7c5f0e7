//! What an expression is at its place: from left to right, up to the first fault.
ghost use Rattle.std.specs.Prelude.{◌≡◌, [], Some, None};
ghost use Rattle.typed_sql.specs.Places.{number_kind};
ghost use Rattle.typed_sql.specs.Steps.{Answers, Becomes, Each, Made, Told};
ghost use Rattle.typed_sql.specs.Typing.{Typed, Others, Negative, summand_of, factor_of, literal, truth, typed, moment, number_of, column_expr};
ghost use Rattle.typed_sql.specs.Own.{own, joined_kind, column_meant};
ghost use Rattle.pg_values.specs.declared.col_type.ColType.TheVariants as kind;
ghost use Rattle.typed_sql.specs.declared.typed.TypedForm.TheVariants as form;
ghost use Rattle.typed_sql.specs.Meaning.{scope_of, FormOf};

use crate::asks::Asks;
use crate::fault::{CheckFault, types_do_not_fit};
use crate::kinds::{
    asks_beside, asks_bool, asks_entry, asks_like, asks_nothing, asks_number, asks_text,
    joined_kind, number_kind, sum_kind, takes,
};
use crate::leaf::{Known, parameter, string, text_form};
use crate::own::{first_factor, first_own, first_summand, is_least_int4, own_kind};
use crate::scope::Scope;
use crate::typed::{TypedExpr, TypedForm, TypedProductPart, TypedSumPart};
use pg_values::{ColType, Value};
use pool_base::{Boxed, List, NoMemory, Text};
use sql_tree::{Comparison, Expr, ProductPart, SumPart};
use std::alloc::Global;

/// Where a check takes its memory, and what the names of the statement mean.
#[derive(Clone, Copy)]
pub struct Check<'a> {
    pub alloc: Global,
    pub scope: Scope<'a>,
}

fn literal(kind: ColType, value: Value) -> TypedExpr
    ensures { result ≡ literal kind value }
{
    TypedExpr {
        kind,
        form: TypedForm::Literal(value),
    }
}

fn truth(form: TypedForm) -> TypedExpr
    ensures { result ≡ truth form }
{
    TypedExpr {
        kind: ColType::Bool,
        form,
    }
}

fn moment(form: TypedForm) -> TypedExpr
    ensures { result ≡ moment form }
{
    TypedExpr {
        kind: ColType::Moment,
        form,
    }
}

fn number(number: i64) -> TypedExpr
    ensures { result ≡ number_of (number_kind number) number }
{
    match number_kind(number) {
        ColType::Int4 => literal(ColType::Int4, Value::Int4(number as i32)),
        _ => literal(ColType::Int8, Value::Int8(number)),
    }
}

/// What an expression is at a place: the typed expression, or its first fault.
#[cycle(typing)]
pub fn typed_at(
    check: &Check<'_>,
    asks: Asks,
    expr: &Expr,
    known: &mut Known,
) -> Result<TypedExpr, CheckFault>
    ensures { Answers (λ e. e) result known.new.items
        (Typed (scope_of check.now.scope) expr.now asks known.old.items) }
{
    let made = form(check, asks.leaf, expr, known)?;
    if takes(asks.takes, made.kind) {
        return Ok(made);
    }
    drop(made);
    Err(types_do_not_fit(check.alloc))
}

/// An expression by its form, whatever its place takes.
#[cycle(typing)]
fn form(
    check: &Check<'_>,
    leaf: ColType,
    expr: &Expr,
    known: &mut Known,
) -> Result<TypedExpr, CheckFault>
    ensures { Answers (λ e. e) result known.new.items
        (FormOf (scope_of check.now.scope) expr.now leaf known.old.items) }
{
    match expr {
        Expr::Or(parts) => alternatives(all(check, asks_bool(), parts.as_slice(), known)),
        Expr::And(parts) => conjunction(all(check, asks_bool(), parts.as_slice(), known)),
        Expr::Not(of) => negation(check.alloc, typed_at(check, asks_bool(), of.get(), known)),
        Expr::IsNull { of, tests } => {
            tested(
                check.alloc,
                typed_at(check, asks_nothing(), of.get(), known),
                tests,
            )
        }
        Expr::Compare(how, left, right) => {
            let beside = own_kind(&check.scope, known.as_slice(), right.get());
            let first = typed_at(check, asks_beside(beside), left.get(), known)?;
            let second = typed_at(check, asks_like(first.kind), right.get(), known);
            compared(check.alloc, *how, first, second)
        }
        Expr::Member { of, negated, list } => {
            let beside = first_own(&check.scope, known.as_slice(), of.get(), list.as_slice());
            let first = typed_at(check, asks_beside(beside), of.get(), known)?;
            let entries = all(
                check,
                asks_entry(beside, first.kind),
                list.as_slice(),
                known,
            );
            among(check.alloc, *negated, first, entries)
        }
        Expr::Concat(parts) => concatenation(all(check, asks_text(), parts.as_slice(), known)),
        Expr::Sum(left, parts) => {
            let beside = first_summand(&check.scope, known.as_slice(), parts.as_slice());
            let first = typed_at(check, asks_number(beside), left.get(), known)?;
            let others = summands(check, first.kind, parts.as_slice(), known);
            summed(check.alloc, first, others)
        }
        Expr::Product(left, parts) => {
            let beside = first_factor(&check.scope, known.as_slice(), parts.as_slice());
            let first = typed_at(check, asks_number(beside), left.get(), known)?;
            let others = factors(check, first.kind, parts.as_slice(), known);
            multiplied(check.alloc, first, others)
        }
        Expr::Minus(of) => negative(check, of.get(), known),
        Expr::Int(given) => Ok(number(*given)),
        Expr::Str(text) => string(check.alloc, leaf, text, known.as_slice()),
        Expr::Bool(given) => Ok(literal(ColType::Bool, Value::Bool(*given))),
        Expr::Null => Ok(literal(leaf, Value::Null)),
        Expr::Param(of) => parameter(check.alloc, check.scope.parameters, leaf, *of, known),
        Expr::Column { qualifier, name } => column(check, qualifier, name, known.as_slice()),
        Expr::CurrentTimestamp => Ok(moment(TypedForm::CurrentTimestamp)),
        Expr::Now => Ok(moment(TypedForm::Now)),
        Expr::TransactionTimestamp => Ok(moment(TypedForm::TransactionTimestamp)),
        Expr::Moment(text) => text_form(check.alloc, ColType::Moment, text, known.as_slice()),
    }
}

/// Each of the expressions, at a place of one kind.
#[cycle(typing)]
fn all(
    check: &Check<'_>,
    asks: Asks,
    parts: &[Expr],
    known: &mut Known,
) -> Result<List<TypedExpr>, CheckFault>
    ensures { Answers (λ es. es) result known.new.items
        (Each (λ part. Typed (scope_of check.now.scope) part asks) parts.now known.old.items) }
{
    let mut made = List::new(check.alloc);
    for part in parts {
        let typed = typed_at(check, asks, part, known)?;
        made.push(typed)?;
    }
    Ok(made)
}

/// OR between parts.
fn alternatives(parts: Result<List<TypedExpr>, CheckFault>) -> Result<TypedExpr, CheckFault>
    ensures { Becomes (λ es. truth (form.Or es)) parts result }
{
    match parts {
        Ok(parts) => Ok(truth(TypedForm::Or(parts))),
        Err(fault) => Err(fault),
    }
}

/// AND between parts.
fn conjunction(parts: Result<List<TypedExpr>, CheckFault>) -> Result<TypedExpr, CheckFault>
    ensures { Becomes (λ es. truth (form.And es)) parts result }
{
    match parts {
        Ok(parts) => Ok(truth(TypedForm::And(parts))),
        Err(fault) => Err(fault),
    }
}

/// `||` between parts.
fn concatenation(parts: Result<List<TypedExpr>, CheckFault>) -> Result<TypedExpr, CheckFault>
    ensures { Becomes (λ es. typed kind.Text (form.Concat es)) parts result }
{
    match parts {
        Ok(parts) => Ok(TypedExpr {
            kind: ColType::Text,
            form: TypedForm::Concat(parts),
        }),
        Err(fault) => Err(fault),
    }
}

/// NOT in front of an operand.
fn negation(alloc: Global, of: Result<TypedExpr, CheckFault>) -> Result<TypedExpr, CheckFault>
    ensures { Becomes (λ e. truth (form.Not e)) of result }
{
    match of {
        Ok(of) => Ok(truth(TypedForm::Not(Boxed::new(alloc, of)?))),
        Err(fault) => Err(fault),
    }
}

/// Tests behind an operand.
fn tested(
    alloc: Global,
    of: Result<TypedExpr, CheckFault>,
    tests: &List<bool>,
) -> Result<TypedExpr, CheckFault>
    ensures { Becomes (λ e. truth (form.IsNull e tests.now)) of result }
{
    match of {
        Ok(of) => {
            let of = Boxed::new(alloc, of)?;
            let tests = List::from_slice(alloc, tests.as_slice())?;
            Ok(truth(TypedForm::IsNull { of, tests }))
        }
        Err(fault) => Err(fault),
    }
}

/// A comparison of its operands.
fn compared(
    alloc: Global,
    how: Comparison,
    left: TypedExpr,
    right: Result<TypedExpr, CheckFault>,
) -> Result<TypedExpr, CheckFault>
    ensures { Becomes (λ b. truth (form.Compare how left b)) right result }
{
    match right {
        Ok(right) => match Boxed::new(alloc, left) {
            Ok(left) => {
                let right = Boxed::new(alloc, right)?;
                Ok(truth(TypedForm::Compare(how, left, right)))
            }
            Err(NoMemory) => {
                drop(right);
                Err(CheckFault::NoMemory)
            }
        },
        Err(fault) => {
            drop(left);
            Err(fault)
        }
    }
}

/// IN, or NOT IN, between an operand and entries.
fn among(
    alloc: Global,
    negated: bool,
    of: TypedExpr,
    entries: Result<List<TypedExpr>, CheckFault>,
) -> Result<TypedExpr, CheckFault>
    ensures { Becomes (λ bs. truth (form.Member of negated bs)) entries result }
{
    match entries {
        Ok(list) => {
            let of = Boxed::new(alloc, of)?;
            Ok(truth(TypedForm::Member { of, negated, list }))
        }
        Err(fault) => {
            drop(of);
            Err(fault)
        }
    }
}

/// A minus in front of an operand.
fn minus(alloc: Global, of: Result<TypedExpr, CheckFault>) -> Result<TypedExpr, CheckFault>
    ensures { Becomes (λ e. typed (joined_kind (Some e.kind) None) (form.Minus e)) of result }
{
    match of {
        Ok(of) => {
            let kind = joined_kind(Some(of.kind), None);
            let form = TypedForm::Minus(Boxed::new(alloc, of)?);
            Ok(TypedExpr { kind, form })
        }
        Err(fault) => Err(fault),
    }
}

#[cycle(typing)]
fn negative(check: &Check<'_>, of: &Expr, known: &mut Known) -> Result<TypedExpr, CheckFault>
    ensures { Answers (λ e. e) result known.new.items
        (Negative (own (scope_of check.now.scope) [] of.now).least_int4
        (Typed (scope_of check.now.scope)) of.now known.old.items) }
{
    if is_least_int4(of) {
        return Ok(literal(ColType::Int4, Value::Int4(-2_147_483_648)));
    }
    minus(check.alloc, typed_at(check, asks_number(None), of, known))
}

fn column(
    check: &Check<'_>,
    qualifier: &Option<Text>,
    name: &Text,
    known: &[Option<ColType>],
) -> Result<TypedExpr, CheckFault>
    ensures { Answers (λ e. e) result known.now (Made column_expr
        (Told (column_meant (scope_of check.now.scope) qualifier.now name.now)) known.now) }
{
    let (number, column) = check.scope.column_meant(qualifier, name)?;
    Ok(TypedExpr {
        kind: column.kind,
        form: TypedForm::Column(number),
    })
}

/// The summands behind the first one, which has this type, and the type of the sum.
#[cycle(typing)]
fn summands(
    check: &Check<'_>,
    first: ColType,
    parts: &[SumPart],
    known: &mut Known,
) -> Result<(ColType, List<TypedSumPart>), CheckFault>
    ensures { Answers (λ x. x) result known.new.items
        (Others (λ s. Typed (scope_of check.now.scope) s.part) summand_of (λ q. q.part.kind)
        first parts.now known.old.items) }
{
    let mut kind = first;
    let mut made = List::new(check.alloc);
    for part in parts {
        let of = typed_at(check, asks_number(Some(kind)), &part.part, known)?;
        kind = sum_kind(kind, of.kind);
        made.push(TypedSumPart {
            minus: part.minus,
            part: of,
        })?;
    }
    Ok((kind, made))
}

/// A sum of its first summand and the others.
fn summed(
    alloc: Global,
    first: TypedExpr,
    others: Result<(ColType, List<TypedSumPart>), CheckFault>,
) -> Result<TypedExpr, CheckFault>
    ensures { Becomes (λ x. typed x.0 (form.Sum first x.1)) others result }
{
    match others {
        Ok((kind, parts)) => {
            let form = TypedForm::Sum(Boxed::new(alloc, first)?, parts);
            Ok(TypedExpr { kind, form })
        }
        Err(fault) => {
            drop(first);
            Err(fault)
        }
    }
}

/// The factors behind the first one, which has this type, and the type of the product.
#[cycle(typing)]
fn factors(
    check: &Check<'_>,
    first: ColType,
    parts: &[ProductPart],
    known: &mut Known,
) -> Result<(ColType, List<TypedProductPart>), CheckFault>
    ensures { Answers (λ x. x) result known.new.items
        (Others (λ f. Typed (scope_of check.now.scope) f.part) factor_of (λ q. q.part.kind)
        first parts.now known.old.items) }
{
    let mut kind = first;
    let mut made = List::new(check.alloc);
    for part in parts {
        let of = typed_at(check, asks_number(Some(kind)), &part.part, known)?;
        kind = sum_kind(kind, of.kind);
        made.push(TypedProductPart {
            sign: part.sign,
            part: of,
        })?;
    }
    Ok((kind, made))
}

/// A product of its first factor and the others.
fn multiplied(
    alloc: Global,
    first: TypedExpr,
    others: Result<(ColType, List<TypedProductPart>), CheckFault>,
) -> Result<TypedExpr, CheckFault>
    ensures { Becomes (λ x. typed x.0 (form.Product first x.1)) others result }
{
    match others {
        Ok((kind, parts)) => {
            let form = TypedForm::Product(Boxed::new(alloc, first)?, parts);
            Ok(TypedExpr { kind, form })
        }
        Err(fault) => {
            drop(first);
            Err(fault)
        }
    }
}
