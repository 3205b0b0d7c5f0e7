//! Describe: the types of a statement's parameters, and the columns of its rows.
ghost use Rattle.std.specs.Prelude.{◌≡◌, [], Some, codes, map, nat_eq, IfOk};
ghost use Rattle.pg_messages.specs.declared.server.ServerMessage.TheVariants.{ParameterDescription};
ghost use Rattle.pg_values.specs.Kinds.{oid_number};
ghost use Rattle.wire_reply.specs.Rows.{IsMessage};
ghost use Rattle.wire_reply.specs.declared.saying.Saying.TheVariants.{Aborted};
ghost use Rattle.wire_session.specs.Kept.{portal_of, prepared};
ghost use Rattle.wire_session.specs.Refusals.{Says};
ghost use Rattle.wire_extended.specs.Describing.{IsDescribed, IsRefusedFor, TellsPortal, TellsStatement};

use crate::binding::{columns_of, ends_block, kinds_of};
use crate::replied::Replied;
use pg_messages::ServerMessage;
use pg_values::{ColType, oid_of};
use pool_base::{Code, List, NoMemory};
use std::alloc::Global;
use wire_query::aborted;
use wire_reply::{Saying, description_bytes, message_bytes};
use wire_session::{Portal, Prepared, Session, refused};

fn numbers_of(alloc: Global, kinds: &[ColType]) -> Result<List<u32>, NoMemory>
    ensures { IfOk result (λ numbers. numbers ≡ map oid_number kinds.now) }
{
    let mut numbers = List::new(alloc);
    for kind in kinds {
        numbers.push(oid_of(*kind))?;
    }
    Ok(numbers)
}

fn kinds_bytes(alloc: Global, kinds: &[ColType]) -> Result<List<u8>, NoMemory>
    ensures { IfOk result (IsMessage (ParameterDescription (map oid_number kinds.now))) }
{
    let kinds = numbers_of(alloc, kinds)?;
    let bytes = message_bytes(alloc, &ServerMessage::ParameterDescription { kinds })?;
    Ok(bytes)
}

fn statement_bytes(alloc: Global, what: &Prepared) -> Result<List<u8>, NoMemory>
    ensures { IfOk result (IsDescribed what.now) }
{
    let mut bytes = kinds_bytes(alloc, kinds_of(what))?;
    let columns = description_bytes(alloc, columns_of(what), &[])?;
    bytes.extend_from_slice(columns.as_slice())?;
    Ok(bytes)
}

fn barred(alloc: Global) -> Result<Replied, NoMemory>
    ensures { IfOk result (IsRefusedFor (Says Aborted (codes "25P02") [])) }
{
    Ok(Replied::Refused(aborted(alloc)?))
}

/// Of a statement, in a failed block or not.
fn described(alloc: Global, what: &Prepared, failed: bool) -> Result<Replied, NoMemory>
    ensures { IfOk result (TellsStatement failed (Some what.now)) }
{
    if failed && !ends_block(what) {
        return barred(alloc);
    }
    let bytes = statement_bytes(alloc, what)?;
    Ok(Replied::Bytes(bytes))
}

/// Of a portal, in a failed block or not.
fn portal_described(alloc: Global, portal: &Portal, failed: bool) -> Result<Replied, NoMemory>
    ensures { IfOk result (TellsPortal failed (Some portal.now)) }
{
    if failed && !portal.ends_block {
        return barred(alloc);
    }
    let bytes = List::from_slice(alloc, portal.description.as_slice())?;
    Ok(Replied::Bytes(bytes))
}

/// The parameters of a statement, and the columns of its rows as texts.
///
/// Errors: `26000` where there is no such statement, then `25P02` in a failed block.
/// Source: PostgreSQL, Frontend/Backend Protocol, "Describe".
pub fn describe_statement(
    alloc: Global,
    session: &Session,
    name: &[u8],
) -> Result<Replied, NoMemory>
    ensures { IfOk result (TellsStatement (nat_eq session.now.status 69)
        (prepared name.now session.now.statements)) }
{
    let failed = session.status == b'E';
    match session.statements.get(name) {
        None => {
            let code = Code { bytes: *b"26000" };
            Ok(Replied::Refused(refused(alloc, Saying::NoStatement, code)?))
        }
        Some(what) => {
            let reply = described(alloc, what, failed)?;
            Ok(reply)
        }
    }
}

/// The columns of a portal's rows, in their formats.
///
/// Errors: `34000` where there is no such portal, then `25P02` in a failed block.
/// Source: PostgreSQL, Frontend/Backend Protocol, "Describe".
pub fn describe_portal(alloc: Global, session: &Session, name: &[u8]) -> Result<Replied, NoMemory>
    ensures { IfOk result (TellsPortal (nat_eq session.now.status 69)
        (portal_of name.now session.now.portals)) }
{
    let failed = session.status == b'E';
    match session.portals.get(name) {
        None => {
            let code = Code { bytes: *b"34000" };
            Ok(Replied::Refused(refused(alloc, Saying::NoPortal, code)?))
        }
        Some(portal) => {
            let reply = portal_described(alloc, portal, failed)?;
            Ok(reply)
        }
    }
}
