//! What a statement of a Query asks for.
ghost use Rattle.std.specs.Prelude.{◌≡◌, [], codes, IfOk};
ghost use Rattle.schema.specs.Grammar.{IsWithin};
ghost use Rattle.catalogue.specs.Checking.{IsChecked};
ghost use Rattle.wire_reply.specs.declared.saying.Saying.TheVariants.{Aborted};
ghost use Rattle.wire_session.specs.Refusals.{Says};
ghost use Rattle.wire_query.specs.Asking.{IsOrder, IsBarred, IsStatement, AsksControl, AsksRecovery, AsksWork, Asks, Describes, is_apart};

use crate::checking::{Verdict, judged};
use catalogue::{Catalogue, Checked, ColumnDesc};
use pool_base::{Boxed, Code, List, NoMemory};
use session_orders::OrderBody;
use sql_tree::Statement;
use std::alloc::Global;
use wire_reply::{Saying, description_bytes};
use wire_session::{Refusal, not_in_profile, refused};

/// What a statement asks for.
#[derive(Drop)]
pub enum Asked {
    /// It is ordered; the description of its rows is this message, or it has none.
    Order {
        body: OrderBody,
        description: List<u8>,
    },
    Refused(Refusal),
}

/// In a failed block nothing is taken but its end.
pub fn aborted(alloc: Global) -> Result<Refusal, NoMemory>
    ensures { IfOk result (Says Aborted (codes "25P02") []) }
{
    refused(alloc, Saying::Aborted, Code { bytes: *b"25P02" })
}

fn barred(alloc: Global) -> Result<Asked, NoMemory>
    ensures { IfOk result IsBarred }
{
    Ok(Asked::Refused(aborted(alloc)?))
}

fn plain(alloc: Global, body: OrderBody) -> Asked
    ensures { IsOrder body result }
{
    Asked::Order {
        body,
        description: List::new(alloc),
    }
}

/// A block does not begin or end in a transaction that no block began.
fn control(alloc: Global, implicit: bool, body: OrderBody) -> Result<Asked, NoMemory>
    ensures { IfOk result (AsksControl implicit body) }
{
    if implicit {
        drop(body);
        let refusal = not_in_profile(alloc, "transaction control in an implicit transaction")?;
        return Ok(Asked::Refused(refusal));
    }
    Ok(plain(alloc, body))
}

fn description_of(alloc: Global, columns: &[ColumnDesc]) -> Result<List<u8>, NoMemory>
    ensures { IfOk result (Describes columns.now) }
{
    match columns {
        [] => Ok(List::new(alloc)),
        [_, ..] => {
            let bytes = description_bytes(alloc, columns, &[])?;
            Ok(bytes)
        }
    }
}

fn ordered(alloc: Global, checked: Boxed<Checked>) -> Result<Asked, NoMemory>
    ensures { IfOk result (IsStatement checked) }
{
    match description_of(alloc, checked.get().columns.as_slice()) {
        Ok(description) => Ok(Asked::Order {
            body: OrderBody::Statement(checked),
            description,
        }),
        Err(NoMemory) => {
            drop(checked);
            Err(NoMemory)
        }
    }
}

fn work(alloc: Global, tables: &Catalogue, statement: &Statement) -> Result<Asked, NoMemory>
    requires within { IsWithin tables.now }
    requires one { IsChecked statement.now }
    ensures { IfOk result (AsksWork tables.now statement.now) }
{
    match judged(alloc, tables, statement, None)? {
        Verdict::Taken(checked) => ordered(alloc, checked),
        Verdict::Refused(refusal) => Ok(Asked::Refused(refusal)),
    }
}

/// Whether nothing is under way: no block, and no transaction that none began.
fn is_apart(status: u8, implicit: bool) -> bool
    ensures { result ≡ is_apart status implicit }
{
    status == b'I' && !implicit
}

/// A backend is brought back outside of blocks and transactions alone.
fn recovery(alloc: Global, apart: bool, backend: u8) -> Result<Asked, NoMemory>
    ensures { IfOk result (AsksRecovery apart backend) }
{
    if apart {
        return Ok(plain(alloc, OrderBody::Recover(backend)));
    }
    let refusal = refused(alloc, Saying::InTransaction, Code { bytes: *b"25001" })?;
    Ok(Asked::Refused(refusal))
}

/// What a statement of a Query asks for, where the session's status is `I`, `T` or `E`, in a
/// transaction that no block began or not.
///
/// Errors: `25P02` in a failed block, but for a statement that ends it; then what the tables say,
/// and `25001` of a recovery in a block or a transaction.
/// House rule: a block neither begins nor ends in a transaction that no block began.
pub fn ask(
    alloc: Global,
    tables: &Catalogue,
    statement: &Statement,
    status: u8,
    implicit: bool,
) -> Result<Asked, NoMemory>
    requires within { IsWithin tables.now }
    ensures { IfOk result (Asks tables.now status implicit statement.now) }
{
    let failed = status == b'E';
    match statement {
        Statement::Commit => control(alloc, implicit, OrderBody::Commit),
        Statement::Rollback => control(alloc, implicit, OrderBody::Rollback),
        _ if failed => barred(alloc),
        Statement::Begin => control(alloc, implicit, OrderBody::Begin),
        Statement::ShowNodes => Ok(plain(alloc, OrderBody::ShowNodes)),
        Statement::Recover(backend) => recovery(alloc, is_apart(status, implicit), *backend),
        Statement::Select(_) => work(alloc, tables, statement),
        Statement::Insert(_) => work(alloc, tables, statement),
        Statement::Update(_) => work(alloc, tables, statement),
        Statement::Delete(_) => work(alloc, tables, statement),
    }
}
