//! A statement against the tables.
ghost use Rattle.std.specs.Prelude.{◌≡◌, IfOk};
ghost use Rattle.std.specs.Option.{option_map};
ghost use Rattle.schema.specs.Grammar.{IsWithin};
ghost use Rattle.wire_query.specs.Verdicts.{Judges, JudgesTaken, TellsWrong, is_update};
ghost use Rattle.catalogue.specs.Checking.{IsChecked};

use catalogue::{Catalogue, CheckFault, Checked, check};
use pool_base::{Boxed, NoMemory};
use sql_tree::Statement;
use std::alloc::Global;
use wire_reply::of_check;
use wire_session::Refusal;

/// What the tables say of a statement.
#[derive(Drop)]
pub enum Verdict {
    Taken(Boxed<Checked>),
    Refused(Refusal),
}

fn updates(statement: &Statement) -> bool
    ensures { result ≡ is_update statement.now }
{
    match statement {
        Statement::Update(_) => true,
        _ => false,
    }
}

fn taken(alloc: Global, checked: Checked) -> Result<Verdict, NoMemory>
    ensures { IfOk result (JudgesTaken checked) }
{
    Ok(Verdict::Taken(Boxed::new(alloc, checked)?))
}

/// Checks a SELECT, INSERT, UPDATE or DELETE against the tables; `kinds` are the numbers of the
/// types of its parameters, and without it no parameter may stand.
pub fn judged(
    alloc: Global,
    tables: &Catalogue,
    statement: &Statement,
    kinds: Option<&[u32]>,
) -> Result<Verdict, NoMemory>
    requires within { IsWithin tables.now }
    requires one { IsChecked statement.now }
    ensures { IfOk result (Judges tables.now statement.now (option_map (λ k. k.now) kinds.entry)) }
{
    match check(alloc, tables, statement, kinds) {
        Ok(checked) => {
            let verdict = taken(alloc, checked)?;
            Ok(verdict)
        }
        Err(fault) => {
            let verdict = refused_by(statement, fault)?;
            Ok(verdict)
        }
    }
}

/// A fault of a statement as a refusal.
fn refused_by(statement: &Statement, fault: CheckFault) -> Result<Verdict, NoMemory>
    ensures { IfOk result (TellsWrong statement.now fault) }
{
    match fault {
        CheckFault::Refused { code, name } => Ok(Verdict::Refused(Refusal {
            saying: of_check(code, updates(statement)),
            code,
            name,
        })),
        CheckFault::NoMemory => Err(NoMemory),
    }
}
