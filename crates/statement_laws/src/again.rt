//! A checked statement, written and read again.
ghost use Rattle.std.specs.Prelude.{◌≡◌, ◌∷◌, [], length, IfOk, IfErr, map};
ghost use Rattle.pg_values.specs.Kinds.{oid_number};
ghost use Rattle.schema.specs.Grammar.{IsWithin};
ghost use Rattle.sql_print.specs.Printed.{statement_text};
ghost use Rattle.sql_tree.specs.declared.statement.Statement.{Statement};
ghost use Rattle.sql_tree.specs.Trees.{IsStatement};
ghost use Rattle.sql_profile.specs.Fits.{Fits};
ghost use Rattle.catalogue.specs.Checking.{IsChecked};
ghost use Rattle.statement_laws.specs.Reread.{AnswersOne, AnswersText, CanBeRead, IsAnswer, IsLimit, IsMemory, IsSame, IsShort, IsWithinLimits, text_of};

use catalogue::{Catalogue, CheckFault, Checked, check, is_checked};
use checked_print::spelled_statement;
use pg_values::{ColType, oid_of};
use pool_base::{List, NoMemory};
use sql_profile::statements_again;
use sql_reader::SqlFault;
use sql_tree::Statement;
use std::alloc::Global;

/// Why a checked statement is not read again.
#[derive(Debug, Drop)]
pub enum AgainFault {
    /// The text is not one statement that is checked.
    Other,
    /// The text is refused.
    Text(SqlFault),
    /// The statement is refused.
    Check(CheckFault),
    /// Memory was refused.
    NoMemory,
}

/// The numbers of the types.
fn numbers_of(alloc: Global, kinds: &List<ColType>) -> Result<List<u32>, NoMemory>
    ensures { IfOk result (λ numbers. numbers ≡ map oid_number kinds.now) }
{
    let mut made = List::new(alloc);
    for kind in kinds.as_slice() {
        made.push(oid_of(*kind))?;
    }
    Ok(made)
}

/// What a check answers to a statement, if it is one that is checked.
fn check_one(
    alloc: Global,
    tables: &Catalogue,
    statement: &Statement,
    numbers: &List<u32>,
) -> Result<Checked, AgainFault>
    requires { IsWithin tables.now }
    ensures { AnswersOne tables.now numbers.now statement.now result }
{
    if !is_checked(statement) {
        return Err(AgainFault::Other);
    }
    match check(alloc, tables, statement, Some(numbers.as_slice())) {
        Ok(checked) => Ok(checked),
        Err(fault) => Err(AgainFault::Check(fault)),
    }
}

/// What a check answers to the statement, where it is alone.
fn check_alone(
    alloc: Global,
    tables: &Catalogue,
    all: &List<Statement>,
    numbers: &List<u32>,
) -> Result<Checked, AgainFault>
    requires { IsWithin tables.now }
    ensures one { (s : Statement) → all.now ≡ s ∷ [] → AnswersOne tables.now numbers.now s result }
    ensures other { (length all.now ≡ 1 → ⊥) → result ≡ Err AgainFault.Other }
{
    match all.as_slice() {
        [one] => check_one(alloc, tables, one, numbers),
        _ => Err(AgainFault::Other),
    }
}

/// What a check answers to what the text of a statement is read as.
#[tactic(auto, using(crate::proofs::AgainLaw::read_answer))]
fn check_text(
    alloc: Global,
    tables: &Catalogue,
    statement: &Statement,
    numbers: &List<u32>,
) -> Result<Checked, AgainFault>
    requires { IsWithin tables.now }
    ensures told { AnswersText tables.now numbers.now (statement_text statement.now) result }
    ensures own { IsStatement statement.now → Fits statement.now → IsChecked statement.now
        → IsAnswer tables.now statement.now numbers.now result }
{
    match statements_again(alloc, statement) {
        Ok(all) => check_alone(alloc, tables, &all, numbers),
        Err(fault) => Err(AgainFault::Text(fault)),
    }
}

/// What a check answers to that, with these types of parameters.
#[tactic(auto, using(crate::proofs::AgainLaw::typed))]
fn check_typed(
    alloc: Global,
    tables: &Catalogue,
    statement: &Statement,
    kinds: &List<ColType>,
) -> Result<Checked, AgainFault>
    requires { IsWithin tables.now }
    ensures told { AnswersText tables.now (map oid_number kinds.now)
        (statement_text statement.now) result }
    ensures own { IsStatement statement.now → Fits statement.now → IsChecked statement.now
        → IsAnswer tables.now statement.now (map oid_number kinds.now) result }
{
    match numbers_of(alloc, kinds) {
        Ok(numbers) => check_text(alloc, tables, statement, &numbers),
        Err(_) => Err(AgainFault::NoMemory),
    }
}

/// What the text of a checked statement is, read and checked again over the same tables, with the
/// types of its parameters.
pub fn checked_again(
    alloc: Global,
    tables: &Catalogue,
    checked: &Checked,
) -> Result<Checked, AgainFault>
    requires { IsWithin tables.now }
    // What a check answers to the one statement that the text is, or why it is not one that is
    // checked.
    ensures told { AnswersText tables.now (map oid_number checked.now.kinds)
        (text_of tables.now checked.now) result }

    // It has the same effect, and its parameters have the same types.
    ensures same { CanBeRead tables.now checked.now
        → IfOk result (IsSame tables.now checked.now) }

    // So it is wherever the text is within the limits, and it is refused only where one is passed.
    ensures within { CanBeRead tables.now checked.now
        → IsWithinLimits (text_of tables.now checked.now) → IfErr result IsMemory }
    ensures limits { CanBeRead tables.now checked.now → IsShort tables.now checked.now
        → IfErr result IsLimit }
{
    match spelled_statement(alloc, tables, checked) {
        Ok(statement) => {
            let answer = check_typed(alloc, tables, &statement, &checked.kinds);
            drop(statement);
            answer
        }
        Err(_) => Err(AgainFault::NoMemory),
    }
}
