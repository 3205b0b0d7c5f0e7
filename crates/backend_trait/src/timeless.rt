//! Whether a statement has no time functions.
ghost use Rattle.std.specs.Prelude.{◌≡◌, true};
ghost use Rattle.std.specs.List.{list_all};
ghost use Rattle.backend_trait.specs.Forms.{timeless_in};
ghost use Rattle.time_rewrite.specs.Timeless.{timeless_expr, timeless_option, timeless_cell, timeless_body};

use catalogue::{
    CheckedBody, TypedCell, TypedExpr, TypedForm, TypedProductPart, TypedSet, TypedSumPart,
};
use pool_base::List;

/// Whether no time function stands in an expression.
#[cycle(timeless)]
#[tactic(auto, using(crate::proofs::TimelessForms::by_form))]
fn is_timeless(expr: &TypedExpr) -> bool
    ensures { result ≡ timeless_expr expr.now }
{
    is_timeless_form(&expr.form)
}

#[cycle(timeless)]
#[tactic(auto, using(crate::proofs::TimelessForms::forms))]
fn is_timeless_form(form: &TypedForm) -> bool
    ensures { result ≡ timeless_in form.now }
{
    match form {
        TypedForm::Or(parts) | TypedForm::And(parts) | TypedForm::Concat(parts) => {
            are_timeless(parts.as_slice())
        }
        TypedForm::Not(of) | TypedForm::IsNull { of, .. } | TypedForm::Minus(of) => {
            is_timeless(of.get())
        }
        TypedForm::Compare(_, left, right) => is_timeless(left.get()) && is_timeless(right.get()),
        TypedForm::Member { of, list, .. } => {
            is_timeless(of.get()) && are_timeless(list.as_slice())
        }
        TypedForm::Sum(first, parts) => {
            is_timeless(first.get()) && are_timeless_summands(parts.as_slice())
        }
        TypedForm::Product(first, parts) => {
            is_timeless(first.get()) && are_timeless_factors(parts.as_slice())
        }
        TypedForm::Literal(_) | TypedForm::Param(_) | TypedForm::Column(_) => true,
        TypedForm::CurrentTimestamp | TypedForm::Now | TypedForm::TransactionTimestamp => false,
    }
}

#[cycle(timeless)]
fn are_timeless(parts: &[TypedExpr]) -> bool
    ensures { result ≡ list_all timeless_expr parts.now }
{
    for part in parts {
        if !is_timeless(part) {
            return false;
        }
    }
    true
}

#[cycle(timeless)]
fn are_timeless_summands(parts: &[TypedSumPart]) -> bool
    ensures { result ≡ list_all (λ s. timeless_expr s.part) parts.now }
{
    for part in parts {
        if !is_timeless(&part.part) {
            return false;
        }
    }
    true
}

#[cycle(timeless)]
fn are_timeless_factors(parts: &[TypedProductPart]) -> bool
    ensures { result ≡ list_all (λ f. timeless_expr f.part) parts.now }
{
    for part in parts {
        if !is_timeless(&part.part) {
            return false;
        }
    }
    true
}

/// Whether no time function stands in an expression, where there is one.
fn is_timeless_option(expr: &Option<TypedExpr>) -> bool
    ensures { result ≡ timeless_option expr.now }
{
    match expr {
        None => true,
        Some(expr) => is_timeless(expr),
    }
}

/// Whether a cell neither takes the moment nor has a time function.
fn is_timeless_cell(cell: &TypedCell) -> bool
    ensures { result ≡ timeless_cell cell.now }
{
    match cell {
        TypedCell::Serial => true,
        TypedCell::Now => false,
        TypedCell::Given(expr) => is_timeless(expr),
    }
}

fn are_timeless_cells(cells: &[TypedCell]) -> bool
    ensures { result ≡ list_all timeless_cell cells.now }
{
    for cell in cells {
        if !is_timeless_cell(cell) {
            return false;
        }
    }
    true
}

fn are_timeless_rows(rows: &[List<TypedCell>]) -> bool
    ensures { result ≡ list_all (list_all timeless_cell) rows.now }
{
    for row in rows {
        if !are_timeless_cells(row.as_slice()) {
            return false;
        }
    }
    true
}

fn are_timeless_sets(sets: &[TypedSet]) -> bool
    ensures { result ≡ list_all (λ s. timeless_expr s.expr) sets.now }
{
    for set in sets {
        if !is_timeless(&set.expr) {
            return false;
        }
    }
    true
}

/// Whether a statement has neither time functions nor cells that take the moment.
pub(crate) fn is_timeless_body(body: &CheckedBody) -> bool
    ensures { result ≡ timeless_body body.now }
{
    match body {
        CheckedBody::Read(read) => {
            are_timeless(read.list.as_slice())
                && is_timeless_option(&read.filter)
                && is_timeless_option(&read.limit)
        }
        CheckedBody::Insert(insert) => are_timeless_rows(insert.rows.as_slice()),
        CheckedBody::Change(change) => {
            are_timeless_sets(change.sets.as_slice()) && is_timeless_option(&change.filter)
        }
        CheckedBody::Remove(remove) => is_timeless_option(&remove.filter),
    }
}
