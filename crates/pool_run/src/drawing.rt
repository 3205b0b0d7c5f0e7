//! Whether a script takes serial numbers.
ghost use Rattle.std.specs.Prelude.{◌≡◌, ◌↔◌, ◌<◌, IfOk, IsTrue, length, map};
ghost use Rattle.std.specs.List.{list_all};
ghost use Rattle.schema.specs.Grammar.{IsWithin};
ghost use Rattle.classifier.specs.declared.class.Class.TheVariants.{SerialInsert};
ghost use Rattle.classifier.specs.Classes.{class_of};
ghost use Rattle.catalogue.specs.Checking.{IsChecked};
ghost use Rattle.pgproto.specs.Line.{line_of};
ghost use Rattle.pool_run.specs.Drawing.{InsertDraws, LineDraws, NoneDraws, StatementDraws, StatementsDraw, TakesNone, TextDraws, is_numberless};

use catalogue::{CheckFault, Checked, check};
use classifier::{Class, class_of};
use pgproto::ScriptLine;
use pool_base::NoMemory;
use schema::{Catalogue, TableDef};
use sql_tree::Statement;
use statement_laws::{checks_agree, none_is_checked_and_refused};
use std::alloc::Global;
use wire_query::{Reading, read_text};

/// A text as long as this fits into no message.
const TEXT_LIMIT: usize = 4_294_967_295;

/// Whether no serial number is taken: no table has a serial column, or no line takes one.
pub fn takes_none(alloc: Global, tables: &Catalogue, lines: &[ScriptLine]) -> Result<bool, NoMemory>
    requires within { IsWithin tables.now }
    ensures { IfOk result (λ none. IsTrue none ↔ TakesNone tables.now (map line_of lines.now)) }
{
    if are_numberless(tables) {
        return Ok(true);
    }
    none_draws(alloc, tables, lines)
}

/// Whether no table has a serial column.
fn are_numberless(tables: &Catalogue) -> bool
    ensures { result ≡ list_all is_numberless tables.now }
{
    let mut rest = tables.tables();
    while let [table, after @ ..] = rest {
        if !is_numberless(table) {
            return false;
        }
        rest = after;
    }
    true
}

fn is_numberless(table: &TableDef) -> bool
    ensures { result ≡ is_numberless table.now }
{
    match table.serial {
        Some(_) => false,
        None => true,
    }
}

/// Whether no line takes a serial number.
fn none_draws(alloc: Global, tables: &Catalogue, lines: &[ScriptLine]) -> Result<bool, NoMemory>
    requires within { IsWithin tables.now }
    ensures { IfOk result (λ none. IsTrue none ↔ NoneDraws tables.now (map line_of lines.now)) }
{
    let mut rest = lines;
    while let [line, after @ ..] = rest {
        if line_draws(alloc, tables, line)? {
            return Ok(false);
        }
        rest = after;
    }
    Ok(true)
}

fn line_draws(alloc: Global, tables: &Catalogue, line: &ScriptLine) -> Result<bool, NoMemory>
    requires within { IsWithin tables.now }
    ensures { IfOk result (λ draws. IsTrue draws ↔ LineDraws tables.now (line_of line.now)) }
{
    match line {
        ScriptLine::Query(_, text) => text_draws(alloc, tables, text.as_bytes()),
        _ => Ok(false),
    }
}

/// Whether the one statement of a text takes a serial number.
#[tactic(auto, using(crate::proofs::DrawingLemmas::long_text))]
fn text_draws(alloc: Global, tables: &Catalogue, text: &[u8]) -> Result<bool, NoMemory>
    requires within { IsWithin tables.now }
    ensures { IfOk result (λ draws. IsTrue draws ↔ TextDraws tables.now text.now) }
{
    if text.len() >= TEXT_LIMIT {
        return Ok(false);
    }
    short_text_draws(alloc, tables, text)
}

fn short_text_draws(alloc: Global, tables: &Catalogue, text: &[u8]) -> Result<bool, NoMemory>
    requires within { IsWithin tables.now }
    requires short { length text.now < 4294967295 }
    ensures { IfOk result (λ draws. IsTrue draws ↔ TextDraws tables.now text.now) }
{
    match read_text(alloc, text)? {
        Reading::Statements(statements) => { statements_draw(alloc, tables, statements.as_slice()) }
        Reading::Refused(_) => Ok(false),
    }
}

fn statements_draw(alloc: Global, tables: &Catalogue, all: &[Statement]) -> Result<bool, NoMemory>
    requires within { IsWithin tables.now }
    ensures { IfOk result (λ draws. IsTrue draws ↔ StatementsDraw tables.now all.now) }
{
    match all {
        [one] => statement_draws(alloc, tables, one),
        _ => Ok(false),
    }
}

fn statement_draws(alloc: Global, tables: &Catalogue, one: &Statement) -> Result<bool, NoMemory>
    requires within { IsWithin tables.now }
    ensures { IfOk result (λ draws. IsTrue draws ↔ StatementDraws tables.now one.now) }
{
    match one {
        Statement::Insert(_) => insert_draws(alloc, tables, one),
        _ => Ok(false),
    }
}

/// Whether an INSERT takes a serial number of its table.
fn insert_draws(alloc: Global, tables: &Catalogue, one: &Statement) -> Result<bool, NoMemory>
    requires within { IsWithin tables.now }
    requires one { IsChecked one.now }
    ensures { IfOk result (λ draws. IsTrue draws ↔ InsertDraws tables.now one.now) }
{
    checks_agree();
    none_is_checked_and_refused();
    match check(alloc, tables, one, None) {
        Ok(checked) => Ok(is_serial(&checked)),
        Err(CheckFault::Refused { .. }) => Ok(false),
        Err(CheckFault::NoMemory) => Err(NoMemory),
    }
}

fn is_serial(checked: &Checked) -> bool
    ensures { IsTrue result ↔ (class_of checked.now.body ≡ SerialInsert) }
{
    match class_of(checked) {
        Class::SerialInsert => true,
        Class::Read | Class::LockingRead | Class::Write => false,
    }
}
