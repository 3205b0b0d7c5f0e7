//! Execute: a portal runs whole once, and its rows are given in pieces.
ghost use Rattle.std.specs.Prelude.{◌≡◌, [], None, Some, codes, false, nat_eq, IfOk};
ghost use Rattle.std.specs.List.{concat};
ghost use Rattle.std.specs.Option.{option_map};
ghost use Rattle.pg_messages.specs.declared.server.ServerMessage.TheVariants.{Empty, Suspended};
ghost use Rattle.pg_messages.specs.Server.{spelling};
ghost use Rattle.session_orders.specs.declared.order.OrderBody.TheVariants as orders;
ghost use Rattle.session_orders.specs.declared.outcome.Tag.TheVariants.{Select};
ghost use Rattle.wire_reply.specs.Replies.{complete_bytes};
ghost use Rattle.wire_reply.specs.Rows.{AreInRange, IsMessage};
ghost use Rattle.wire_reply.specs.Tags.{tag_text};
ghost use Rattle.wire_reply.specs.declared.saying.Saying.TheVariants.{Aborted};
ghost use Rattle.wire_session.specs.Kept.{portal_of};
ghost use Rattle.wire_session.specs.Refusals.{Says};
ghost use Rattle.wire_session.specs.declared.portals.PortalState.TheVariants as states;
ghost use Rattle.wire_extended.specs.declared.executing.Executed.TheVariants.{Order as Ordered};
ghost use Rattle.wire_extended.specs.Executing.{IsDenied, IsGiven, Leaves, Looks, RunsControl, TellsExecute, control_order};
ghost use Rattle.wire_extended.specs.Giving.{EachIsRow, GivesFirst, end_of, given_bytes};

use pg_messages::ServerMessage;
use pool_base::{Code, List, NoMemory};
use session_orders::{OrderBody, Tag};
use sql_eval::Row;
use std::alloc::Global;
use wire_query::aborted;
use wire_reply::{Saying, TAG_ROOM, message_bytes, put_complete, row_bytes, tag_text};
use wire_session::{
    Control, Portal, PortalState, Portals, Refusal, Session, bound_of, not_in_profile, refused,
};

/// What an Execute leads to.
#[derive(Drop)]
pub enum Executed {
    /// These bytes; the next rows of the portal are given with them, where it has rows.
    Bytes(List<u8>),
    Order(OrderBody),
    Refused(Refusal),
}

fn refusal(alloc: Global, saying: Saying, code: Code) -> Result<Executed, NoMemory>
    ensures { IfOk result (IsDenied (Says saying code.bytes [])) }
{
    Ok(Executed::Refused(refused(alloc, saying, code)?))
}

fn control_order(control: Control) -> OrderBody
    ensures { result ≡ control_order control }
{
    match control {
        Control::Begin => OrderBody::Begin,
        Control::Commit => OrderBody::Commit,
        Control::Rollback => OrderBody::Rollback,
    }
}

/// The end of an Execute that gave so many rows.
fn end_of(alloc: Global, bound: Option<usize>, count: usize) -> Result<List<u8>, NoMemory>
    ensures { IfOk result (λ bytes. bytes ≡ end_of bound count) }
{
    match bound {
        Some(bound) if bound == count => suspended(alloc),
        _ => completed(alloc, count),
    }
}

fn suspended(alloc: Global) -> Result<List<u8>, NoMemory>
    ensures { IfOk result (λ bytes. bytes ≡ spelling Suspended) }
{
    let bytes = message_bytes(alloc, &ServerMessage::Suspended)?;
    Ok(bytes)
}

fn completed(alloc: Global, count: usize) -> Result<List<u8>, NoMemory>
    ensures { IfOk result (λ bytes. bytes ≡ complete_bytes (tag_text (Select count))) }
{
    let tag = tag_text(alloc, Tag::Select(count as u64))?;
    let mut bytes = Vec::new(alloc);
    bytes.reserve(TAG_ROOM)?;
    put_complete(&mut bytes, tag.as_str());
    Ok(List::from_vec(bytes))
}

fn joined(alloc: Global, rows: &[List<u8>]) -> Result<List<u8>, NoMemory>
    ensures { IfOk result (λ bytes. bytes ≡ concat rows.now) }
{
    let mut bytes = List::new(alloc);
    for row in rows {
        bytes.extend_from_slice(row.as_slice())?;
    }
    Ok(bytes)
}

/// Rows as messages, and the end of the Execute that gives them.
fn told_rows(alloc: Global, rows: &[List<u8>], limit: i32) -> Result<List<u8>, NoMemory>
    ensures { IfOk result (λ bytes. bytes ≡ given_bytes limit rows.now) }
{
    let mut bytes = joined(alloc, rows)?;
    let end = end_of(alloc, bound_of(limit), rows.len())?;
    bytes.append(end)?;
    Ok(bytes)
}

/// The rows of a result as messages in these formats.
fn kept_rows(alloc: Global, rows: &[Row], formats: &[u16]) -> Result<List<List<u8>>, NoMemory>
    requires range { AreInRange rows.now }
    ensures { IfOk result (EachIsRow formats.now rows.now) }
{
    let mut kept = List::new(alloc);
    for row in rows {
        kept.push(row_bytes(alloc, row, formats)?)?;
    }
    Ok(kept)
}

/// Keeps the rows that the statement of a portal gave, as messages in the portal's formats, and
/// gives the first of them. Where the portal is gone nothing is told.
pub fn first_rows(
    alloc: Global,
    portals: &mut Portals,
    name: &[u8],
    limit: i32,
    rows: &[Row],
) -> Result<List<u8>, NoMemory>
    requires range { AreInRange rows.now }
    ensures { IfOk result (GivesFirst limit name.now rows.now (portal_of name.now portals.old)
        portals.old portals.new) }
{
    let kept = match portals.get(name) {
        None => return Ok(List::new(alloc)),
        Some(portal) => kept_rows(alloc, rows, portal.formats.as_slice())?,
    };
    let state = PortalState::Rows {
        rows: kept,
        given: 0,
    };
    let bytes = told_rows(alloc, state.next_rows(limit), limit)?;
    drop(portals.set(name, state));
    portals.advance(name, limit);
    Ok(bytes)
}

fn run_control(alloc: Global, implicit: bool, control: Control) -> Result<Executed, NoMemory>
    ensures { IfOk result (RunsControl implicit control) }
{
    if implicit {
        let refusal = not_in_profile(alloc, "transaction control in an implicit transaction")?;
        return Ok(Executed::Refused(refusal));
    }
    Ok(Executed::Order(control_order(control)))
}

fn barred(alloc: Global) -> Result<Executed, NoMemory>
    ensures { IfOk result (IsDenied (Says Aborted (codes "25P02") [])) }
{
    Ok(Executed::Refused(aborted(alloc)?))
}

fn empty(alloc: Global) -> Result<Executed, NoMemory>
    ensures { IfOk result (IsGiven (IsMessage Empty)) }
{
    let bytes = message_bytes(alloc, &ServerMessage::Empty)?;
    Ok(Executed::Bytes(bytes))
}

/// What an Execute of a portal is told, unless its statement is to be ordered.
fn told(
    alloc: Global,
    portal: &Portal,
    implicit: bool,
    limit: i32,
) -> Result<Option<Executed>, NoMemory>
    ensures { IfOk result (Looks false implicit limit portal.now) }
{
    match &portal.state {
        PortalState::Empty => {
            let executed = empty(alloc)?;
            Ok(Some(executed))
        }
        PortalState::Ran => {
            let executed = refusal(alloc, Saying::CannotRun, Code { bytes: *b"55000" })?;
            Ok(Some(executed))
        }
        PortalState::Rows { .. } => {
            let bytes = told_rows(alloc, portal.state.next_rows(limit), limit)?;
            Ok(Some(Executed::Bytes(bytes)))
        }
        PortalState::Control(control) => {
            let executed = run_control(alloc, implicit, *control)?;
            Ok(Some(executed))
        }
        PortalState::Bound(_) => Ok(None),
    }
}

/// The same, in a failed block or not.
fn looked(
    alloc: Global,
    portal: &Portal,
    failed: bool,
    implicit: bool,
    limit: i32,
) -> Result<Option<Executed>, NoMemory>
    ensures { IfOk result (Looks failed implicit limit portal.now) }
{
    if failed && !portal.ends_block {
        let executed = barred(alloc)?;
        return Ok(Some(executed));
    }
    let told = told(alloc, portal, implicit, limit)?;
    Ok(told)
}

/// Lets a portal run that has a statement: it has run then.
fn run(session: &mut Session, name: &[u8]) -> Executed
    ensures bound { (checked : _) → option_map (λ portal. portal.state)
        (portal_of name.now session.old.portals) ≡ Some (states.Bound checked)
        → result ≡ Ordered (orders.Statement checked) }
    ensures leaves { Leaves result name.now session.old session.new }
{
    match session.portals.set(name, PortalState::Ran) {
        Some(PortalState::Bound(checked)) => Executed::Order(OrderBody::Statement(checked)),
        other => {
            drop(other);
            Executed::Order(OrderBody::Settle)
        }
    }
}

/// Runs a portal, or gives more of its rows.
///
/// Errors: `34000` where there is no such portal, then `25P02` in a failed block; `55000` where a
/// statement without rows has run; `0A000` where a block would begin or end in a transaction that
/// no block began.
/// Source: PostgreSQL, Frontend/Backend Protocol, "Execute".
pub fn execute(
    alloc: Global,
    session: &mut Session,
    name: &[u8],
    limit: i32,
) -> Result<Executed, NoMemory>
    ensures tells { IfOk result (TellsExecute (nat_eq session.old.status 69) session.old.implicit
        limit (portal_of name.now session.old.portals)) }
    ensures leaves { IfOk result (λ executed. Leaves executed name.now session.old session.new) }
{
    let failed = session.status == b'E';
    let implicit = session.implicit;
    match session.portals.get(name) {
        None => {
            let executed = refusal(alloc, Saying::NoPortal, Code { bytes: *b"34000" })?;
            Ok(executed)
        }
        Some(portal) => {
            let looked = looked(alloc, portal, failed, implicit, limit)?;
            Ok(ran(session, name, looked))
        }
    }
}

/// What an Execute is told; where that is an order, the portal has run.
fn ran(session: &mut Session, name: &[u8], looked: Option<Executed>) -> Executed
    ensures some { (executed : _) → looked ≡ Some executed → result ≡ executed }
    ensures bound { (checked : _) → looked ≡ None → option_map (λ portal. portal.state)
        (portal_of name.now session.old.portals) ≡ Some (states.Bound checked)
        → result ≡ Ordered (orders.Statement checked) }
    ensures leaves { Leaves result name.now session.old session.new }
{
    match looked {
        Some(Executed::Order(body)) => {
            drop(session.portals.set(name, PortalState::Ran));
            Executed::Order(body)
        }
        Some(Executed::Bytes(bytes)) => Executed::Bytes(bytes),
        Some(Executed::Refused(refusal)) => Executed::Refused(refusal),
        None => run(session, name),
    }
}
