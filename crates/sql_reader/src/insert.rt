//! Reads INSERT, behind the word that begins it.
ghost use Rattle.std.specs.Prelude.{◌≡◌, ◌<◌, ◌≤◌, length, IfOk};
ghost use Rattle.sql_tokens.specs.Grammar.{part};
ghost use Rattle.sql_tokens.specs.Reading.{Gives, tails};
ghost use Rattle.sql_expr.specs.Reading.{after_comma};
ghost use Rattle.sql_reader.specs.Steps.{listed};
ghost use Rattle.sql_reader.specs.Reading.{name_at, cell_at, row_at, columns_at, insert_at};

use crate::front::in_front;
use crate::marks::{mark_comma, mark_default, mark_open};
use crate::words::{mark_close, mark_row, name, word_into, word_values};
use pool_base::{List, Text};
use sql_expr::read_front;
use sql_tokens::{Awaited, ReadError, Token};
use sql_tree::{Cell, Insert, Statement};
use std::alloc::Global;

/// A cell of a row.
fn cell(alloc: Global, tokens: &[Token]) -> Result<(Cell, &[Token]), ReadError>
    ensures gives { Gives (λ x. (x.0, x.1.now)) result (cell_at 64 tokens.now) }
    ensures shorter { IfOk result (λ x. length x.1.now < length tokens.now) }
{
    match mark_default(tokens) {
        Some(after) => Ok((Cell::Fill, after)),
        None => {
            let (expr, rest) = read_front(alloc, tokens)?;
            Ok((Cell::Given(expr), rest))
        }
    }
}

/// The further cells of a row.
fn further_cells(alloc: Global, tokens: &[Token]) -> Result<(List<Cell>, &[Token]), ReadError>
    ensures gives { Gives (λ x. (x.0, x.1.now)) result
        (tails after_comma part (cell_at 64) tokens.now) }
    ensures no_longer { IfOk result (λ x. length x.1.now ≤ length tokens.now) }
{
    let mut parts = List::new(alloc);
    let mut rest = tokens;
    while let Some(after) = mark_comma(rest) {
        let (part, after) = cell(alloc, after)?;
        parts.push(part)?;
        rest = after;
    }
    Ok((parts, rest))
}

/// The cells of a row.
fn cells(alloc: Global, tokens: &[Token]) -> Result<(List<Cell>, &[Token]), ReadError>
    ensures gives { Gives (λ x. (x.0, x.1.now)) result
        (listed after_comma (cell_at 64) tokens.now) }
    ensures shorter { IfOk result (λ x. length x.1.now < length tokens.now) }
{
    let (first, rest) = cell(alloc, tokens)?;
    match further_cells(alloc, rest) {
        Ok((others, rest)) => Ok((in_front(alloc, first, others)?, rest)),
        Err(fault) => {
            drop(first);
            Err(fault)
        }
    }
}

/// A row.
fn row(alloc: Global, tokens: &[Token]) -> Result<(List<Cell>, &[Token]), ReadError>
    ensures gives { Gives (λ x. (x.0, x.1.now)) result (row_at 64 tokens.now) }
    ensures shorter { IfOk result (λ x. length x.1.now < length tokens.now) }
{
    let rest = mark_row(tokens)?;
    let (cells, rest) = cells(alloc, rest)?;
    let rest = mark_close(rest, Awaited::End)?;
    Ok((cells, rest))
}

/// The further rows.
fn further_rows(alloc: Global, tokens: &[Token]) -> Result<(List<List<Cell>>, &[Token]), ReadError>
    ensures gives { Gives (λ x. (x.0, x.1.now)) result
        (tails after_comma part (row_at 64) tokens.now) }
    ensures no_longer { IfOk result (λ x. length x.1.now ≤ length tokens.now) }
{
    let mut parts = List::new(alloc);
    let mut rest = tokens;
    while let Some(after) = mark_comma(rest) {
        let (part, after) = row(alloc, after)?;
        parts.push(part)?;
        rest = after;
    }
    Ok((parts, rest))
}

/// The rows.
fn rows(alloc: Global, tokens: &[Token]) -> Result<(List<List<Cell>>, &[Token]), ReadError>
    ensures gives { Gives (λ x. (x.0, x.1.now)) result (listed after_comma (row_at 64) tokens.now) }
    ensures shorter { IfOk result (λ x. length x.1.now < length tokens.now) }
{
    let (first, rest) = row(alloc, tokens)?;
    let (others, rest) = further_rows(alloc, rest)?;
    Ok((in_front(alloc, first, others)?, rest))
}

/// The further columns.
fn further_names(alloc: Global, tokens: &[Token]) -> Result<(List<Text>, &[Token]), ReadError>
    ensures gives { Gives (λ x. (x.0, x.1.now)) result
        (tails after_comma part name_at tokens.now) }
    ensures no_longer { IfOk result (λ x. length x.1.now ≤ length tokens.now) }
{
    let mut parts = List::new(alloc);
    let mut rest = tokens;
    while let Some(after) = mark_comma(rest) {
        let (part, after) = name(after)?;
        parts.push(part)?;
        rest = after;
    }
    Ok((parts, rest))
}

/// The columns.
fn names(alloc: Global, tokens: &[Token]) -> Result<(List<Text>, &[Token]), ReadError>
    ensures gives { Gives (λ x. (x.0, x.1.now)) result (listed after_comma name_at tokens.now) }
    ensures shorter { IfOk result (λ x. length x.1.now < length tokens.now) }
{
    let (first, rest) = name(tokens)?;
    let (others, rest) = further_names(alloc, rest)?;
    Ok((in_front(alloc, first, others)?, rest))
}

/// The columns in their parentheses, if they stand there.
fn columns(alloc: Global, tokens: &[Token]) -> Result<(Option<List<Text>>, &[Token]), ReadError>
    ensures gives { Gives (λ x. (x.0, x.1.now)) result (columns_at tokens.now) }
    ensures no_longer { IfOk result (λ x. length x.1.now ≤ length tokens.now) }
{
    match mark_open(tokens) {
        Some(after) => {
            let (columns, rest) = names(alloc, after)?;
            let rest = mark_close(rest, Awaited::Statement)?;
            Ok((Some(columns), rest))
        }
        None => Ok((None, tokens)),
    }
}

/// Rows that go into a table, behind INSERT.
pub(crate) fn insert(alloc: Global, tokens: &[Token]) -> Result<(Statement, &[Token]), ReadError>
    ensures gives { Gives (λ x. (x.0, x.1.now)) result (insert_at 64 tokens.now) }
    ensures shorter { IfOk result (λ x. length x.1.now < length tokens.now) }
{
    let rest = word_into(tokens)?;
    let (table, rest) = name(rest)?;
    let (columns, rest) = columns(alloc, rest)?;
    let rest = word_values(rest)?;
    let (rows, rest) = rows(alloc, rest)?;
    let insert = Insert {
        table,
        columns,
        rows,
    };
    Ok((Statement::Insert(insert), rest))
}
