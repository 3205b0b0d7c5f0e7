//! Checked statements by the numbers of their table and columns.
use crate::words::put_value;
use case_lines::Told;
use catalogue::{
    CheckedBody, CheckedChange, CheckedInsert, CheckedRead, OrderKey, TypedCell, TypedExpr,
    TypedForm, TypedSet,
};

fn put_number(mark: &str, number: u32, told: &mut Told) {
    told.put_word(mark);
    told.put_number(u64::from(number));
}

/// A value, `#` and the number of a column, `$` and that of a parameter, or two dots for any other
/// expression.
fn put_expr(expr: &TypedExpr, told: &mut Told) {
    match &expr.form {
        TypedForm::Literal(value) => {
            told.put_gap();
            put_value(value, told);
        }
        TypedForm::Column(number) => put_number("#", u32::from(*number), told),
        TypedForm::Param(number) => put_number("$", *number, told),
        _ => told.put_word(".."),
    }
}

/// An expression behind a word, if there is one.
fn put_behind(word: &str, expr: &Option<TypedExpr>, told: &mut Told) {
    if let Some(expr) = expr {
        told.put_word(word);
        put_expr(expr, told);
    }
}

fn put_keys(keys: &[OrderKey], told: &mut Told) {
    for key in keys {
        told.put_word("by");
        put_number("", u32::from(key.column), told);
        if key.falling {
            told.put_word("desc");
        }
    }
}

fn put_read(read: &CheckedRead, told: &mut Told) {
    match read.table {
        Some(table) => put_number("", u32::from(table), told),
        None => told.put_word("alone"),
    }
    if read.count {
        told.put_word("count");
    }
    for expr in read.list.as_slice() {
        put_expr(expr, told);
    }
    put_behind("where", &read.filter, told);
    put_keys(read.order.as_slice(), told);
    put_behind("limit", &read.limit, told);
    if read.for_update {
        told.put_word("locked");
    }
}

fn put_cell(cell: &TypedCell, told: &mut Told) {
    match cell {
        TypedCell::Serial => told.put_word("serial"),
        TypedCell::Now => told.put_word("now"),
        TypedCell::Given(expr) => put_expr(expr, told),
    }
}

fn put_row(row: &[TypedCell], told: &mut Told) {
    for cell in row {
        put_cell(cell, told);
    }
    told.put_word(";");
}

fn put_insert(insert: &CheckedInsert, told: &mut Told) {
    put_number("", u32::from(insert.table), told);
    for row in insert.rows.as_slice() {
        put_row(row.as_slice(), told);
    }
}

fn put_sets(sets: &[TypedSet], told: &mut Told) {
    for set in sets {
        put_number("#", u32::from(set.column), told);
        put_expr(&set.expr, told);
    }
}

fn put_change(change: &CheckedChange, told: &mut Told) {
    put_number("", u32::from(change.table), told);
    put_sets(change.sets.as_slice(), told);
    put_behind("where", &change.filter, told);
}

/// What a statement does.
pub(crate) fn put_body(body: &CheckedBody, told: &mut Told) {
    match body {
        CheckedBody::Read(read) => put_read(read, told),
        CheckedBody::Insert(insert) => put_insert(insert, told),
        CheckedBody::Change(change) => put_change(change, told),
        CheckedBody::Remove(remove) => {
            put_number("", u32::from(remove.table), told);
            put_behind("where", &remove.filter, told);
        }
    }
}
