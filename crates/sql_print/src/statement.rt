//! The text of a statement.
ghost use Rattle.std.specs.Prelude.{◌≡◌, ◌∷◌, ◌++◌, [], IfOk, OnOk};
ghost use Rattle.sql_tokens.specs.declared.word.Word.TheVariants as words;
ghost use Rattle.sql_print.specs.Spelling.{name, word};
ghost use Rattle.sql_print.specs.Printed.{cell_tokens, columns_tokens, delete_tokens, direction, expr_tokens, insert_tokens, item_tokens, list_tokens, optional, order_item_tokens, order_tokens, row_tokens, select_tokens, set_tokens, statement_text, tokens_of, update_lock, update_tokens, where_tokens};
ghost use Rattle.sql_print.specs.Writing.{after, state};

use crate::expression::write_expr;
use crate::leaf::write_column;
use crate::listed::{Written, write_listed};
use crate::writer::Writer;
use pool_base::{List, NoMemory, Text};
use sql_tokens::{Mark, Word};
use sql_tree::{
    Cell, Delete, Expr, Insert, OrderItem, Select, SelectItem, SelectList, SetItem, Statement,
    Update,
};
use std::alloc::Global;

/// The one text of a statement.
///
/// Shape: words in upper case, names in double quotes where they are not plain names in lower case
/// or are reserved, parentheses round each compound part of an expression, one space between
/// tokens.
#[tactic(auto, using(crate::proofs::Steps::after_text))]
pub fn print_statement(alloc: Global, statement: &Statement) -> Result<Text, NoMemory>
    ensures { IfOk result (λ text. text ≡ statement_text statement.now) }
{
    let mut onto = Writer::new(alloc);
    write_statement(statement, &mut onto)?;
    Ok(onto.into_text())
}

fn write_statement(statement: &Statement, onto: &mut Writer) -> Result<(), NoMemory>
    ensures { OnOk result (state onto.new ≡ after (state onto.old) (tokens_of statement.now)) }
{
    match statement {
        Statement::Select(select) => write_select(select, onto),
        Statement::Insert(insert) => write_insert(insert, onto),
        Statement::Update(update) => write_update(update, onto),
        Statement::Delete(delete) => write_delete(delete, onto),
        Statement::Begin => onto.word(Word::Begin),
        Statement::Commit => onto.word(Word::Commit),
        Statement::Rollback => onto.word(Word::Rollback),
        Statement::ShowNodes => {
            onto.word(Word::Show)?;
            onto.name("pool_nodes")
        }
        Statement::Recover(backend) => {
            onto.command("pgpool")?;
            onto.command("recover")?;
            onto.whole(u64::from(*backend))
        }
    }
}

#[tactic(auto, using(crate::proofs::Steps::after_append))]
fn write_select(select: &Select, onto: &mut Writer) -> Result<(), NoMemory>
    ensures { OnOk result (state onto.new ≡ after (state onto.old) (select_tokens select.now)) }
{
    onto.word(Word::Select)?;
    write_list(&select.list, onto)?;
    write_from(&select.table, onto)?;
    write_where(&select.filter, onto)?;
    write_order(select.order.as_slice(), onto)?;
    write_limit(&select.limit, onto)?;
    write_lock(select.for_update, onto)
}

fn write_list(given: &SelectList, onto: &mut Writer) -> Result<(), NoMemory>
    ensures { OnOk result (state onto.new ≡ after (state onto.old) (list_tokens given.now)) }
{
    match given {
        SelectList::Star => onto.mark(Mark::Star),
        SelectList::Count => {
            onto.function("count")?;
            onto.mark(Mark::Open)?;
            onto.mark(Mark::Star)?;
            onto.mark(Mark::Close)
        }
        SelectList::Items(items) => write_listed(items.as_slice(), onto),
    }
}

fn write_from(table: &Option<Text>, onto: &mut Writer) -> Result<(), NoMemory>
    ensures { OnOk result (state onto.new ≡ after (state onto.old)
        (optional (λ called. word words.From ∷ name called ∷ []) table.now)) }
{
    match table {
        None => Ok(()),
        Some(called) => {
            onto.word(Word::From)?;
            onto.name(called.as_str())
        }
    }
}

fn write_where(filter: &Option<Expr>, onto: &mut Writer) -> Result<(), NoMemory>
    ensures { OnOk result (state onto.new ≡ after (state onto.old) (where_tokens filter.now)) }
{
    match filter {
        None => Ok(()),
        Some(expr) => {
            onto.word(Word::Where)?;
            write_expr(expr, onto)
        }
    }
}

fn write_order(order: &[OrderItem], onto: &mut Writer) -> Result<(), NoMemory>
    ensures { OnOk result (state onto.new ≡ after (state onto.old) (order_tokens order.now)) }
{
    match order {
        [] => Ok(()),
        [_, ..] => {
            onto.word(Word::Order)?;
            onto.word(Word::By)?;
            write_listed(order, onto)
        }
    }
}

fn write_limit(limit: &Option<Expr>, onto: &mut Writer) -> Result<(), NoMemory>
    ensures { OnOk result (state onto.new ≡ after (state onto.old)
        (optional (λ limit. word words.Limit ∷ expr_tokens limit) limit.now)) }
{
    match limit {
        None => Ok(()),
        Some(expr) => {
            onto.word(Word::Limit)?;
            write_expr(expr, onto)
        }
    }
}

/// FOR UPDATE, or nothing.
fn write_lock(for_update: bool, onto: &mut Writer) -> Result<(), NoMemory>
    ensures { OnOk result (state onto.new ≡ after (state onto.old) (update_lock for_update)) }
{
    if for_update {
        onto.word(Word::For)?;
        onto.word(Word::Update)
    } else {
        Ok(())
    }
}

#[tactic(auto, using(crate::proofs::Steps::after_append))]
fn write_insert(insert: &Insert, onto: &mut Writer) -> Result<(), NoMemory>
    ensures { OnOk result (state onto.new ≡ after (state onto.old) (insert_tokens insert.now)) }
{
    onto.word(Word::Insert)?;
    onto.word(Word::Into)?;
    onto.name(insert.table.as_str())?;
    write_columns(&insert.columns, onto)?;
    onto.word(Word::Values)?;
    write_listed(insert.rows.as_slice(), onto)
}

#[tactic(auto, using(crate::proofs::Steps::after_append))]
fn write_columns(columns: &Option<List<Text>>, onto: &mut Writer) -> Result<(), NoMemory>
    ensures { OnOk result (state onto.new
        ≡ after (state onto.old) (optional columns_tokens columns.now)) }
{
    match columns {
        None => Ok(()),
        Some(names) => {
            onto.mark(Mark::Open)?;
            write_listed(names.as_slice(), onto)?;
            onto.mark(Mark::Close)
        }
    }
}

#[tactic(auto, using(crate::proofs::Steps::after_append))]
fn write_update(update: &Update, onto: &mut Writer) -> Result<(), NoMemory>
    ensures { OnOk result (state onto.new ≡ after (state onto.old) (update_tokens update.now)) }
{
    onto.word(Word::Update)?;
    onto.name(update.table.as_str())?;
    onto.word(Word::Set)?;
    write_listed(update.sets.as_slice(), onto)?;
    write_where(&update.filter, onto)
}

fn write_delete(delete: &Delete, onto: &mut Writer) -> Result<(), NoMemory>
    ensures { OnOk result (state onto.new ≡ after (state onto.old) (delete_tokens delete.now)) }
{
    onto.word(Word::Delete)?;
    onto.word(Word::From)?;
    onto.name(delete.table.as_str())?;
    write_where(&delete.filter, onto)
}

/// The name that AS gives, or nothing.
fn write_called(called: &Option<Text>, onto: &mut Writer) -> Result<(), NoMemory>
    ensures { OnOk result (state onto.new ≡ after (state onto.old)
        (optional (λ called. word words.As ∷ name called ∷ []) called.now)) }
{
    match called {
        None => Ok(()),
        Some(text) => {
            onto.word(Word::As)?;
            onto.name(text.as_str())
        }
    }
}

/// DESC, or nothing.
fn write_direction(falling: bool, onto: &mut Writer) -> Result<(), NoMemory>
    ensures { OnOk result (state onto.new ≡ after (state onto.old) (direction falling)) }
{
    if falling {
        onto.word(Word::Desc)
    } else {
        Ok(())
    }
}

impl Written for SelectItem {
    ghost tokens = { item_tokens };

    #[tactic(auto, using(crate::proofs::Steps::after_append))]
    fn write(&self, onto: &mut Writer) -> Result<(), NoMemory> {
        write_expr(&self.expr, onto)?;
        write_called(&self.name, onto)
    }
}

impl Written for OrderItem {
    ghost tokens = { order_item_tokens };

    #[tactic(auto, using(crate::proofs::Steps::after_append))]
    fn write(&self, onto: &mut Writer) -> Result<(), NoMemory> {
        write_column(&self.qualifier, &self.column, onto)?;
        write_direction(self.falling, onto)
    }
}

impl Written for SetItem {
    ghost tokens = { set_tokens };

    fn write(&self, onto: &mut Writer) -> Result<(), NoMemory> {
        onto.name(self.column.as_str())?;
        onto.mark(Mark::Equal)?;
        write_expr(&self.expr, onto)
    }
}

impl Written for Cell {
    ghost tokens = { cell_tokens };

    fn write(&self, onto: &mut Writer) -> Result<(), NoMemory> {
        match self {
            Cell::Fill => onto.word(Word::Default),
            Cell::Given(expr) => write_expr(expr, onto),
        }
    }
}

impl Written for List<Cell> {
    ghost tokens = { row_tokens };

    #[tactic(auto, using(crate::proofs::Steps::after_append))]
    fn write(&self, onto: &mut Writer) -> Result<(), NoMemory> {
        onto.mark(Mark::Open)?;
        write_listed(self.as_slice(), onto)?;
        onto.mark(Mark::Close)
    }
}

impl Written for Text {
    ghost tokens = { λ called. name called ∷ [] };

    fn write(&self, onto: &mut Writer) -> Result<(), NoMemory> {
        onto.name(self.as_str())
    }
}
