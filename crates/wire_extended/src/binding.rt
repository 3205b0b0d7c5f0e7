//! Bind: a portal of a statement with values.
ghost use Rattle.std.specs.Prelude.{◌≡◌, ◌↔◌, [], IfOk, IsTrue, OnOk};
ghost use Rattle.checked_sql.specs.Binding.{bound_statement};
ghost use Rattle.wire_reply.specs.Rows.{IsMessage, description};
ghost use Rattle.wire_session.specs.declared.portals.PortalState.TheVariants as states;
ghost use Rattle.wire_extended.specs.Binding.{CountsFit, FormatsFit, LeavesBind, TellsBind, TellsBound, TellsForm, TellsMade, TellsPut, columns_of, ends_block, kinds_of, state_with};
ghost use Rattle.wire_extended.specs.Keeping.{KeepsStatus};
ghost use Rattle.wire_extended.specs.Naming.{TellsNewPortal};

use crate::naming::{Standing, refusal_of};
use crate::replied::Replied;
use crate::values::{Read, are_formats, counts, values_of};
use catalogue::{Checked, ColumnDesc};
use checked_sql::bind;
use pg_messages::ServerMessage;
use pg_values::{ColType, Value};
use pool_base::{Boxed, Code, List, NoMemory, Text};
use std::alloc::Global;
use wire_query::aborted;
use wire_reply::{Saying, description_bytes, message_bytes, of_check};
use wire_session::{
    Control, PORTAL_LIMIT, Portal, PortalState, Prepared, Refusal, Session, refused,
};

/// What a Bind says.
#[derive(Drop)]
pub struct Binding {
    pub portal: List<u8>,
    pub name: List<u8>,
    pub formats: List<u16>,
    pub values: List<Option<List<u8>>>,
    pub results: List<u16>,
}

/// A portal that is to be put, or why the client is refused.
#[derive(Drop)]
enum Made {
    State(PortalState),
    Refused(Refusal),
}

/// Whether a statement may run in a failed block: it is none, or ends the block.
pub(crate) fn ends_block(what: &Prepared) -> bool
    ensures { result ≡ ends_block what.now }
{
    match what {
        Prepared::Empty => true,
        Prepared::Control(Control::Begin) => false,
        Prepared::Control(Control::Commit | Control::Rollback) => true,
        Prepared::Checked(_) => false,
    }
}

pub(crate) fn kinds_of(what: &Prepared) -> &[ColType]
    ensures { result.now ≡ kinds_of what.now }
{
    match what {
        Prepared::Checked(checked) => checked.get().kinds.as_slice(),
        Prepared::Empty | Prepared::Control(_) => &[],
    }
}

pub(crate) fn columns_of(what: &Prepared) -> &[ColumnDesc]
    ensures { result.now ≡ columns_of what.now }
{
    match what {
        Prepared::Checked(checked) => checked.get().columns.as_slice(),
        Prepared::Empty | Prepared::Control(_) => &[],
    }
}

fn with_values(alloc: Global, checked: &Checked, values: &[Value]) -> Result<PortalState, NoMemory>
    ensures { IfOk result (λ state. state ≡ states.Bound (bound_statement values.now checked.now)) }
{
    match bind(checked, values) {
        Ok(bound) => Ok(PortalState::Bound(Boxed::new(alloc, bound)?)),
        Err(_) => Err(NoMemory),
    }
}

fn state_of(alloc: Global, what: &Prepared, values: &[Value]) -> Result<PortalState, NoMemory>
    ensures { IfOk result (λ state. state ≡ state_with values.now what.now) }
{
    match what {
        Prepared::Empty => Ok(PortalState::Empty),
        Prepared::Control(control) => Ok(PortalState::Control(*control)),
        Prepared::Checked(checked) => with_values(alloc, checked.get(), values),
    }
}

/// Whether there are as many values as parameters, and formats beside them and the columns.
fn counts_fit(what: &Prepared, binding: &Binding) -> bool
    ensures { IsTrue result ↔ CountsFit what.now binding.now }
{
    let values = binding.values.len();
    values == kinds_of(what).len()
        && counts(binding.formats.as_slice(), values)
        && counts(binding.results.as_slice(), columns_of(what).len())
}

/// Whether each format is text or binary.
fn formats_fit(binding: &Binding) -> bool
    ensures { IsTrue result ↔ FormatsFit binding.now }
{
    are_formats(binding.formats.as_slice()) && are_formats(binding.results.as_slice())
}

/// Why the counts or the formats of a Bind are refused.
fn form_refusal(
    alloc: Global,
    what: &Prepared,
    binding: &Binding,
) -> Result<Option<Refusal>, NoMemory>
    ensures { IfOk result (TellsForm what.now binding.now) }
{
    if !counts_fit(what, binding) {
        let code = Code { bytes: *b"08P01" };
        return Ok(Some(refused(alloc, Saying::ProtocolViolation, code)?));
    }
    if !formats_fit(binding) {
        let code = Code { bytes: *b"22023" };
        return Ok(Some(refused(alloc, Saying::InvalidFormat, code)?));
    }
    Ok(None)
}

/// What is said of the code of a value.
fn value_refusal(alloc: Global, code: Code) -> Result<Refusal, NoMemory>
    ensures code { IfOk result (λ refusal. refusal.code.bytes ≡ code.bytes) }
    ensures name { IfOk result (λ refusal. refusal.name ≡ []) }
{
    let saying = if code.bytes == *b"08P01" {
        Saying::ProtocolViolation
    } else if code.bytes == *b"22P03" {
        Saying::InvalidBinary
    } else if code.bytes == *b"22021" {
        Saying::InvalidUtf8
    } else {
        of_check(code, false)
    };
    Ok(Refusal {
        saying,
        code,
        name: Text::from_str(alloc, "")?,
    })
}

/// Why the name of a portal is refused.
fn name_refusal(alloc: Global, session: &Session, name: &[u8]) -> Result<Option<Refusal>, NoMemory>
    ensures { IfOk result (TellsNewPortal name.now session.now.portals) }
{
    let standing = Standing {
        there: session.portals.get(name).is_some(),
        unnamed: name.is_empty(),
        full: session.portals.len() >= PORTAL_LIMIT,
    };
    let code = Code { bytes: *b"42P03" };
    let refusal = refusal_of(alloc, Saying::PortalExists, code, standing)?;
    Ok(refusal)
}

/// What a portal of a statement is made, or why it is not, in a failed block or not.
fn made_of(
    alloc: Global,
    session: &Session,
    what: &Prepared,
    binding: &Binding,
    failed: bool,
) -> Result<Made, NoMemory>
    ensures { IfOk result (TellsMade failed what.now session.now.portals binding.now) }
{
    if failed && !ends_block(what) {
        return Ok(Made::Refused(aborted(alloc)?));
    }
    match form_refusal(alloc, what, binding)? {
        Some(refusal) => Ok(Made::Refused(refusal)),
        None => {
            let made = made_with(alloc, session, what, binding)?;
            Ok(made)
        }
    }
}

fn made_with(
    alloc: Global,
    session: &Session,
    what: &Prepared,
    binding: &Binding,
) -> Result<Made, NoMemory>
    ensures { IfOk result (TellsPut what.now session.now.portals binding.now) }
{
    let formats = binding.formats.as_slice();
    match values_of(alloc, kinds_of(what), formats, binding.values.as_slice())? {
        Read::Refused(code) => Ok(Made::Refused(value_refusal(alloc, code)?)),
        Read::Values(values) => match name_refusal(alloc, session, binding.portal.as_slice())? {
            Some(refusal) => Ok(Made::Refused(refusal)),
            None => Ok(Made::State(state_of(alloc, what, values.as_slice())?)),
        },
    }
}

/// What a portal is put with: its description, and whether it may run in a failed block.
fn beside(alloc: Global, what: &Prepared, results: &[u16]) -> Result<(List<u8>, bool), NoMemory>
    ensures columns { IfOk result (λ both. IsMessage (description results.now
        (columns_of what.now)) both.0) }
    ensures ends { IfOk result (λ both. both.1 ≡ ends_block what.now) }
{
    let description = description_bytes(alloc, columns_of(what), results)?;
    Ok((description, ends_block(what)))
}

/// What is put as a portal, with its description and whether it may run in a failed block.
#[derive(Drop)]
enum Bound {
    State {
        state: PortalState,
        description: List<u8>,
        ends: bool,
    },
    Refused(Refusal),
}

/// What a Bind makes, or why it is refused.
fn bound_of(alloc: Global, session: &Session, binding: &Binding) -> Result<Bound, NoMemory>
    ensures { IfOk result (TellsBound session.now binding.now) }
{
    let failed = session.status == b'E';
    match session.statements.get(binding.name.as_slice()) {
        None => {
            let code = Code { bytes: *b"26000" };
            Ok(Bound::Refused(refused(alloc, Saying::NoStatement, code)?))
        }
        Some(what) => {
            let (description, ends) = beside(alloc, what, binding.results.as_slice())?;
            match made_of(alloc, session, what, binding, failed)? {
                Made::Refused(refusal) => Ok(Bound::Refused(refusal)),
                Made::State(state) => Ok(Bound::State {
                    state,
                    description,
                    ends,
                }),
            }
        }
    }
}

/// Makes a portal of a statement with values.
///
/// Errors: `26000` where there is no such statement, `25P02` in a failed block, `08P01` for a wrong
/// count, `22023` for a format other than 0 and 1, the code of a value, `42P03` where the portal is
/// there, `54000` at 64 portals.
/// Source: PostgreSQL, Frontend/Backend Protocol, "Bind".
pub fn bind_portal(
    alloc: Global,
    session: &mut Session,
    binding: Binding,
) -> Result<Replied, NoMemory>
    ensures tells { IfOk result (TellsBind session.old binding) }
    ensures leaves { IfOk result (LeavesBind session.old binding session.new) }
    ensures kept { OnOk result (KeepsStatus session.old session.new) }
{
    match bound_of(alloc, session, &binding)? {
        Bound::Refused(refusal) => Ok(Replied::Refused(refusal)),
        Bound::State {
            state,
            description,
            ends,
        } => {
            let reply = message_bytes(alloc, &ServerMessage::BindComplete)?;
            session.portals.put(Portal {
                name: binding.portal,
                description,
                formats: binding.results,
                ends_block: ends,
                state,
            })?;
            Ok(Replied::Bytes(reply))
        }
    }
}
