//! Orders and requests.
ghost use Rattle.std.specs.Prelude.{◌≡◌, ◌++◌, ◌∷◌, OnOk, codes, string_bytes};
ghost use Rattle.std.specs.Fmt.{signed_decimal};
ghost use Rattle.pgproto.specs.Rendering.{in_quotes};
ghost use Rattle.checked_print.specs.Statements.{table_name};
ghost use Rattle.journal.specs.Orders.{spelled_body, spelled_order, spelled_request, spelled_run};

use crate::pieces::{push_counted, push_quoted, push_refusal, push_signed, push_typed, push_word};
use backend_trait::Request;
use catalogue::{Catalogue, Checked};
use checked_print::print_checked;
use pool_base::NoMemory;
use session_orders::{Order, OrderBody};
use std::alloc::Global;

/// An order: its moment in microseconds, and what is ordered.
pub(crate) fn push_order(
    alloc: Global,
    tables: &Catalogue,
    order: &Order,
    onto: &mut String,
) -> Result<(), NoMemory>
    ensures { OnOk result (string_bytes onto.new
        ≡ string_bytes onto.old ++ spelled_order tables.now order.now) }
{
    push_signed(order.moment, onto)?;
    push_word(" ", onto)?;
    push_body(alloc, tables, &order.body, onto)
}

fn push_body(
    alloc: Global,
    tables: &Catalogue,
    body: &OrderBody,
    onto: &mut String,
) -> Result<(), NoMemory>
    ensures { OnOk result (string_bytes onto.new
        ≡ string_bytes onto.old ++ spelled_body tables.now body.now) }
{
    match body {
        OrderBody::Statement(statement) => push_run(alloc, tables, statement.get(), onto),
        OrderBody::Begin => push_word("begin", onto),
        OrderBody::Commit => push_word("commit", onto),
        OrderBody::Rollback => push_word("rollback", onto),
        OrderBody::Settle => push_word("settle", onto),
        OrderBody::ShowNodes => push_word("show-nodes", onto),
        OrderBody::Recover(number) => push_counted("recover ", u64::from(*number), onto),
        OrderBody::Refuse { code, name } => push_refusal("refuse ", *code, name.as_bytes(), onto),
        OrderBody::Leave => push_word("leave", onto),
    }
}

/// A statement as it is printed.
fn push_run(
    alloc: Global,
    tables: &Catalogue,
    statement: &Checked,
    onto: &mut String,
) -> Result<(), NoMemory>
    ensures { OnOk result (string_bytes onto.new
        ≡ string_bytes onto.old ++ spelled_run tables.now statement.now) }
{
    let text = print_checked(alloc, tables, statement)?;
    push_word("run ", onto)?;
    push_quoted(text.as_bytes(), onto)
}

/// A word, and the name of a table in quotes. A number that is not there has the empty name.
fn push_table(word: &str, tables: &Catalogue, number: u8, onto: &mut String) -> Result<(), NoMemory>
    ensures { OnOk result (string_bytes onto.new
        ≡ string_bytes onto.old ++ (word.now ++ in_quotes (table_name tables.now number))) }
{
    push_word(word, onto)?;
    match tables.table(number) {
        Some(table) => push_quoted(table.name.as_bytes(), onto),
        None => push_quoted(b"", onto),
    }
}

fn push_set_serial(
    tables: &Catalogue,
    number: u8,
    next: i64,
    onto: &mut String,
) -> Result<(), NoMemory>
    ensures { OnOk result (string_bytes onto.new ≡ string_bytes onto.old ++ (codes "set-serial "
        ++ (in_quotes (table_name tables.now number) ++ (32 ∷ signed_decimal next)))) }
{
    push_table("set-serial ", tables, number, onto)?;
    push_typed(" ", next, onto)
}

pub(crate) fn push_request(
    alloc: Global,
    tables: &Catalogue,
    request: &Request,
    onto: &mut String,
) -> Result<(), NoMemory>
    ensures { OnOk result (string_bytes onto.new
        ≡ string_bytes onto.old ++ spelled_request tables.now request.now) }
{
    match request {
        Request::TakeSnapshot => push_word("take-snapshot", onto),
        Request::Run(statement) => push_run(alloc, tables, statement, onto),
        Request::Lock(table) => push_table("lock ", tables, *table, onto),
        Request::Commit => push_word("commit", onto),
        Request::Rollback => push_word("rollback", onto),
        Request::ReadSerial(table) => push_table("read-serial ", tables, *table, onto),
        Request::SetSerial(table, next) => push_set_serial(tables, *table, *next, onto),
    }
}
