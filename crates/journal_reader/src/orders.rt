//! What clients order.
ghost use Rattle.schema.specs.Grammar.{IsWithin};

use crate::fault::LineFault;
use crate::words::{code, signed, text, word};
use catalogue::{Catalogue, CheckFault, Checked, check, is_checked};
use pool_base::{Boxed, NoMemory};
use session_orders::{Order, OrderBody};
use sql_reader::{SqlFault, read_statements};
use sql_tree::Statement;
use std::alloc::Global;

/// The word in front of what is ordered.
#[derive(Clone, Copy)]
enum Kind {
    Run,
    Refuse,
    Begin,
    Commit,
    Rollback,
    Settle,
    ShowNodes,
    Leave,
}

/// The word in front of what has no more words.
fn plain_of(bytes: &[u8]) -> Option<(Kind, &[u8])> {
    if let Some(rest) = bytes.strip_prefix(b"begin") {
        return Some((Kind::Begin, rest));
    }
    if let Some(rest) = bytes.strip_prefix(b"commit") {
        return Some((Kind::Commit, rest));
    }
    if let Some(rest) = bytes.strip_prefix(b"rollback") {
        return Some((Kind::Rollback, rest));
    }
    if let Some(rest) = bytes.strip_prefix(b"settle") {
        return Some((Kind::Settle, rest));
    }
    if let Some(rest) = bytes.strip_prefix(b"show-nodes") {
        return Some((Kind::ShowNodes, rest));
    }
    if let Some(rest) = bytes.strip_prefix(b"leave") {
        return Some((Kind::Leave, rest));
    }
    None
}

/// The word in front, and the bytes after it.
fn kind_of(bytes: &[u8]) -> Option<(Kind, &[u8])> {
    if let Some(rest) = bytes.strip_prefix(b"run ") {
        return Some((Kind::Run, rest));
    }
    if let Some(rest) = bytes.strip_prefix(b"refuse ") {
        return Some((Kind::Refuse, rest));
    }
    plain_of(bytes)
}

fn fault_of(fault: CheckFault) -> LineFault {
    match fault {
        CheckFault::NoMemory => LineFault::NoMemory,
        CheckFault::Refused { .. } => LineFault::BadLine,
    }
}

/// A statement over the tables.
fn checked_of(alloc: Global, tables: &Catalogue, one: &Statement) -> Result<Checked, LineFault>
    requires { IsWithin tables.now }
{
    if !is_checked(one) {
        return Err(LineFault::BadLine);
    }
    match check(alloc, tables, one, None) {
        Ok(checked) => Ok(checked),
        Err(fault) => Err(fault_of(fault)),
    }
}

/// Takes away the last of what a read is ordered by: that is the key of its table, which a check
/// puts behind all else.
fn without_key(one: &mut Statement) {
    if let Statement::Select(select) = one {
        drop(select.order.pop());
    }
}

/// The one statement of a text, over the tables.
fn one_of(alloc: Global, tables: &Catalogue, all: &mut [Statement]) -> Result<Checked, LineFault>
    requires { IsWithin tables.now }
{
    if all.len() != 1 {
        return Err(LineFault::BadLine);
    }
    without_key(&mut all[0]);
    checked_of(alloc, tables, &all[0])
}

fn unread(fault: SqlFault) -> LineFault {
    match fault {
        SqlFault::NoMemory => LineFault::NoMemory,
        SqlFault::Syntax(_) | SqlFault::Outside { .. } | SqlFault::TooLong => LineFault::BadLine,
    }
}

/// A text as long as this is not read.
const TEXT_LIMIT: usize = 4_294_967_295;

fn statement_of(alloc: Global, tables: &Catalogue, text: &str) -> Result<Checked, LineFault>
    requires { IsWithin tables.now }
{
    if text.len() >= TEXT_LIMIT {
        return Err(LineFault::BadLine);
    }
    match read_statements(alloc, text) {
        Ok(statements) => {
            let mut all = statements.into_vec();
            one_of(alloc, tables, all.as_mut_slice())
        }
        Err(fault) => Err(unread(fault)),
    }
}

fn boxed(alloc: Global, checked: Checked) -> Result<OrderBody, NoMemory> {
    Ok(OrderBody::Statement(Boxed::new(alloc, checked)?))
}

/// A statement in quotes.
fn run(alloc: Global, tables: &Catalogue, bytes: &[u8]) -> Result<OrderBody, LineFault>
    requires { IsWithin tables.now }
{
    let (text, _) = text(alloc, bytes)?;
    let checked = statement_of(alloc, tables, text.as_str())?;
    Ok(boxed(alloc, checked)?)
}

/// A code, and a name in quotes.
fn refuse(alloc: Global, bytes: &[u8]) -> Result<OrderBody, LineFault> {
    let (code, rest) = code(bytes)?;
    let (name, _) = text(alloc, word(b" ", rest)?)?;
    Ok(OrderBody::Refuse { code, name })
}

/// What is ordered behind that word.
fn body_of(
    alloc: Global,
    tables: &Catalogue,
    kind: Kind,
    rest: &[u8],
) -> Result<OrderBody, LineFault>
    requires { IsWithin tables.now }
{
    match kind {
        Kind::Run => run(alloc, tables, rest),
        Kind::Refuse => refuse(alloc, rest),
        Kind::Begin => Ok(OrderBody::Begin),
        Kind::Commit => Ok(OrderBody::Commit),
        Kind::Rollback => Ok(OrderBody::Rollback),
        Kind::Settle => Ok(OrderBody::Settle),
        Kind::ShowNodes => Ok(OrderBody::ShowNodes),
        Kind::Leave => Ok(OrderBody::Leave),
    }
}

fn body(alloc: Global, tables: &Catalogue, bytes: &[u8]) -> Result<OrderBody, LineFault>
    requires { IsWithin tables.now }
{
    match kind_of(bytes) {
        Some((kind, rest)) => body_of(alloc, tables, kind, rest),
        None => Err(LineFault::BadLine),
    }
}

/// An order: its moment, and what is ordered.
pub(crate) fn order(alloc: Global, tables: &Catalogue, bytes: &[u8]) -> Result<Order, LineFault>
    requires { IsWithin tables.now }
{
    let (moment, rest) = signed(bytes)?;
    let body = body(alloc, tables, word(b" ", rest)?)?;
    Ok(Order { moment, body })
}
