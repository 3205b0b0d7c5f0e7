//! Parse: a statement under a name.
ghost use Rattle.std.specs.Prelude.{[], codes, nat_eq, IfOk, OnOk};
ghost use Rattle.schema.specs.Grammar.{IsWithin};
ghost use Rattle.catalogue.specs.Checking.{IsChecked};
ghost use Rattle.wire_reply.specs.declared.saying.Saying.TheVariants.{Aborted};
ghost use Rattle.wire_session.specs.Refusals.{IsNotTaken, Says};
ghost use Rattle.wire_extended.specs.Keeping.{KeepsStatus};
ghost use Rattle.wire_extended.specs.Parsing.{IsRefused, IsSeveral, LeavesName, LeavesParse, Prepares, PreparesOne, PreparesRead, PreparesWork, TellsName, TellsNamed, TellsParse};
ghost use Rattle.wire_extended.specs.Naming.{TellsNew};
ghost use Rattle.wire_extended.specs.declared.parsing.Made.TheVariants as made;

use crate::naming::{Standing, refusal_of};
use crate::replied::Replied;
use catalogue::Catalogue;
use pg_messages::ServerMessage;
use pool_base::{Code, List, NoMemory};
use sql_tree::Statement;
use std::alloc::Global;
use wire_query::{Reading, Verdict, aborted, judged, read_text, second_place, syntax_at};
use wire_reply::{Saying, message_bytes};
use wire_session::{Control, Prepared, Refusal, STATEMENT_NAME_LIMIT, Session, not_in_profile};

/// What a statement is prepared as.
#[derive(Drop)]
enum Made {
    Prepared(Prepared),
    Refused(Refusal),
}

fn prepared_work(
    alloc: Global,
    tables: &Catalogue,
    statement: &Statement,
    kinds: &[u32],
) -> Result<Made, NoMemory>
    requires within { IsWithin tables.now }
    requires one { IsChecked statement.now }
    ensures { IfOk result (PreparesWork tables.now kinds.now statement.now) }
{
    match judged(alloc, tables, statement, Some(kinds))? {
        Verdict::Taken(checked) => Ok(Made::Prepared(Prepared::Checked(checked))),
        Verdict::Refused(refusal) => Ok(Made::Refused(refusal)),
    }
}

fn barred(alloc: Global) -> Result<Made, NoMemory>
    ensures { IfOk result (IsRefused (Says Aborted (codes "25P02") [])) }
{
    Ok(Made::Refused(aborted(alloc)?))
}

fn not_prepared(alloc: Global, what: &str) -> Result<Made, NoMemory>
    ensures { IfOk result (IsRefused (IsNotTaken what.now)) }
{
    Ok(Made::Refused(not_in_profile(alloc, what)?))
}

/// What one statement is prepared as, in a failed block or not.
fn prepared_one(
    alloc: Global,
    tables: &Catalogue,
    statement: &Statement,
    kinds: &[u32],
    failed: bool,
) -> Result<Made, NoMemory>
    requires within { IsWithin tables.now }
    ensures { IfOk result (PreparesOne tables.now kinds.now failed statement.now) }
{
    match statement {
        Statement::Commit => Ok(Made::Prepared(Prepared::Control(Control::Commit))),
        Statement::Rollback => Ok(Made::Prepared(Prepared::Control(Control::Rollback))),
        _ if failed => barred(alloc),
        Statement::Begin => Ok(Made::Prepared(Prepared::Control(Control::Begin))),
        Statement::ShowNodes => not_prepared(alloc, "show"),
        Statement::Recover(_) => not_prepared(alloc, "recover"),
        Statement::Select(_) => prepared_work(alloc, tables, statement, kinds),
        Statement::Insert(_) => prepared_work(alloc, tables, statement, kinds),
        Statement::Update(_) => prepared_work(alloc, tables, statement, kinds),
        Statement::Delete(_) => prepared_work(alloc, tables, statement, kinds),
    }
}

/// Several statements are refused at the second.
fn several(alloc: Global, text: &[u8]) -> Result<Made, NoMemory>
    ensures { IfOk result (IsRefused IsSeveral) }
{
    let place = second_place(alloc, text)?;
    let refusal = syntax_at(alloc, place)?;
    Ok(Made::Refused(refusal))
}

fn prepared_read(
    alloc: Global,
    tables: &Catalogue,
    text: &[u8],
    reading: Reading,
    kinds: &[u32],
    failed: bool,
) -> Result<Made, NoMemory>
    requires within { IsWithin tables.now }
    ensures { IfOk result (PreparesRead tables.now kinds.now failed reading) }
{
    match reading {
        Reading::Refused(refusal) => Ok(Made::Refused(refusal)),
        Reading::Statements(statements) => match statements.as_slice() {
            [] => Ok(Made::Prepared(Prepared::Empty)),
            [one] => prepared_one(alloc, tables, one, kinds, failed),
            [_, _, ..] => several(alloc, text),
        },
    }
}

fn made_of(
    alloc: Global,
    tables: &Catalogue,
    text: &[u8],
    kinds: &[u32],
    failed: bool,
) -> Result<Made, NoMemory>
    requires within { IsWithin tables.now }
    ensures { IfOk result (Prepares tables.now kinds.now failed text.now) }
{
    let reading = read_text(alloc, text)?;
    let made = prepared_read(alloc, tables, text, reading, kinds, failed)?;
    Ok(made)
}

/// Whether the name may be given, or why not.
fn name_refusal(alloc: Global, session: &Session, name: &[u8]) -> Result<Option<Refusal>, NoMemory>
    ensures { IfOk result (TellsNew name.now session.now.statements) }
{
    let standing = Standing {
        there: session.statements.get(name).is_some(),
        unnamed: name.is_empty(),
        full: session.statements.len() >= STATEMENT_NAME_LIMIT,
    };
    let code = Code { bytes: *b"42P05" };
    let refusal = refusal_of(alloc, Saying::StatementExists, code, standing)?;
    Ok(refusal)
}

fn name_it(
    alloc: Global,
    session: &mut Session,
    name: List<u8>,
    what: Prepared,
) -> Result<Replied, NoMemory>
    ensures tells { IfOk result (TellsNamed name session.old.statements) }
    ensures leaves { IfOk result (LeavesName (made.Prepared what) name session.old session.new) }
    ensures kept { OnOk result (KeepsStatus session.old session.new) }
{
    match name_refusal(alloc, session, name.as_slice()) {
        Ok(None) => {
            let reply = message_bytes(alloc, &ServerMessage::ParseComplete)?;
            session.statements.put(name, what)?;
            Ok(Replied::Bytes(reply))
        }
        Ok(Some(refusal)) => {
            drop(what);
            Ok(Replied::Refused(refusal))
        }
        Err(NoMemory) => {
            drop(what);
            Err(NoMemory)
        }
    }
}

fn told(
    alloc: Global,
    session: &mut Session,
    name: List<u8>,
    made: Made,
) -> Result<Replied, NoMemory>
    ensures tells { IfOk result (TellsName made name session.old.statements) }
    ensures leaves { IfOk result (LeavesName made name session.old session.new) }
    ensures kept { OnOk result (KeepsStatus session.old session.new) }
{
    match made {
        Made::Prepared(what) => {
            let reply = name_it(alloc, session, name, what)?;
            Ok(reply)
        }
        Made::Refused(refusal) => Ok(Replied::Refused(refusal)),
    }
}

/// Lets a name stand for the statement of a text.
///
/// Errors: what the reader refuses, then `42601` at the second of several statements, `25P02` in a
/// failed block, `0A000` of a statement that goes through a Query alone, what the tables say,
/// `42P05` where the name is there, `54000` at 256 names.
/// Source: PostgreSQL, Frontend/Backend Protocol, "Extended Query".
pub fn parse(
    alloc: Global,
    tables: &Catalogue,
    session: &mut Session,
    name: List<u8>,
    text: &[u8],
    kinds: &[u32],
) -> Result<Replied, NoMemory>
    requires within { IsWithin tables.now }
    ensures tells { IfOk result (TellsParse tables.now kinds.now (nat_eq session.old.status 69)
        text.now name session.old.statements) }
    ensures leaves { IfOk result (LeavesParse tables.now kinds.now (nat_eq session.old.status 69)
        text.now name session.old session.new) }
    ensures kept { OnOk result (KeepsStatus session.old session.new) }
{
    let failed = session.status == b'E';
    let made = made_of(alloc, tables, text, kinds, failed)?;
    let reply = told(alloc, session, name, made)?;
    Ok(reply)
}
