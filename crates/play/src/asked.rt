//! What a text of SQL asks for.
ghost use Rattle.std.specs.Prelude.{◌≡◌, ◌<◌, ◌^◌, ◌⊎◌, ◌↔◌, IsTrue, ℕ, ℤ, length, List as Sequence, IfOk, Some, option_map, [], ◌∷◌, codes};
ghost use Rattle.pg_values.specs.Range.{IsMoment};
ghost use Rattle.time_rewrite.specs.Rewriting.{at_moment};
ghost use Rattle.schema.specs.Grammar.{IsWithin};
ghost use Rattle.sql_reader.specs.Text.{IsTextOf};
ghost use Rattle.play.specs.Codes.{text_of_code};
ghost use Rattle.play.specs.Asked.{Asks, IsAsked, checked_asks, left, left_out, refused as refusal, unread};
ghost use Rattle.play.specs.Told.{asked_of};

use crate::codes::{about, outside, text_of_code};
use backend_trait::is_runnable;
use catalogue::{Catalogue, CheckFault, Checked, check};
use classifier::{Class, class_of};
use pool_base::{Code, List, NoMemory, Text};
use sql_profile::{SqlFault, Statement, read_statements};
use std::alloc::Global;
use std::str;
use time_rewrite::{RewriteFault, rewrite};

/// What a text asks for.
#[derive(Drop)]
pub(crate) enum Asked {
    /// The text has no statement.
    Nothing,
    /// It is refused before a backend is asked: the code, and the text of the message.
    Refused { code: Code, message: Text },
    /// A statement, with the moment in place of its time functions.
    Runs(Checked),
}

/// A code of the wire's own.
const NOT_TAKEN: Code = Code { bytes: *b"0A000" };

const SYNTAX: Code = Code { bytes: *b"42601" };

const TOO_LONG: Code = Code { bytes: *b"54000" };

const NO_TEXT: Code = Code { bytes: *b"22021" };

const UNTIMELY: Code = Code { bytes: *b"22008" };

/// The first moment, 0001-01-01 00:00 UTC.
const FIRST_MOMENT: i64 = -63_082_281_600_000_000;

/// The last moment, a microsecond before the year 10000.
const LAST_MOMENT: i64 = 252_455_615_999_999_999;

/// A refusal with the one text of its code.
fn refused(alloc: Global, code: Code) -> Result<Asked, NoMemory>
    ensures { IfOk result (λ asked. asked_of asked ≡ refusal code.bytes (text_of_code code.bytes)) }
{
    Ok(Asked::Refused {
        code,
        message: Text::from_str(alloc, text_of_code(code))?,
    })
}

/// The refusal of what is not taken, by its name.
fn left(alloc: Global, name: &str) -> Result<Asked, NoMemory>
    ensures { IfOk result (λ asked. asked_of asked ≡ left name.now) }
{
    Ok(Asked::Refused {
        code: NOT_TAKEN,
        message: outside(alloc, name)?,
    })
}

/// The refusal of a text that the reader refuses. A place is told from 1.
fn unread(alloc: Global, fault: SqlFault) -> Result<Asked, NoMemory>
    ensures { IfOk result (λ asked. unread fault ≡ Some (asked_of asked)) }
{
    match fault {
        SqlFault::Syntax(place) => {
            let byte = u64::from(place) + 1;
            let message = format!(in alloc; "syntax error at byte {byte}")?;
            Ok(Asked::Refused {
                code: SYNTAX,
                message: Text::from_string(message),
            })
        }
        SqlFault::Outside { name, .. } => left(alloc, name.as_str()),
        SqlFault::TooLong => refused(alloc, TOO_LONG),
        SqlFault::NoMemory => Err(NoMemory),
    }
}

/// The name of a statement that is left for later, if it is one.
fn left_out(statement: &Statement) -> Option<&'static str>
    ensures { option_map (λ name. name.now) result ≡ left_out statement.now }
{
    match statement {
        Statement::Select(_) | Statement::Insert(_) | Statement::Update(_) | Statement::Delete(_) =>
            None,
        Statement::Begin | Statement::Commit | Statement::Rollback => Some("transaction control"),
        Statement::ShowNodes => Some("show"),
        Statement::Recover(_) => Some("recover"),
    }
}

/// What a statement that is in the form in which it runs asks for.
fn class_asks(alloc: Global, checked: Checked) -> Result<Asked, NoMemory>
    ensures { (moment : ℤ) → at_moment moment checked ≡ checked
        → IfOk result (λ asked. asked_of asked ≡ checked_asks moment checked) }
{
    match class_of(&checked) {
        Class::SerialInsert => {
            drop(checked);
            left(alloc, "serial")
        }
        Class::Read | Class::LockingRead | Class::Write => Ok(Asked::Runs(checked)),
    }
}

/// What a statement asks for with the moment put in.
fn rewritten_asks(alloc: Global, moment: i64, checked: &Checked) -> Result<Asked, NoMemory>
    ensures { IfOk result (λ asked.
        (¬ (IsMoment moment)
        × (asked_of asked ≡ refusal (codes "22008") (text_of_code (codes "22008"))))
        ⊎ (IsMoment moment × (asked_of asked ≡ checked_asks moment checked.now))) }
{
    match rewrite(checked, moment) {
        Err(RewriteFault::NoMemory) => Err(NoMemory),
        Err(RewriteFault::MomentOutOfRange) => refused(alloc, UNTIMELY),
        Ok(sent) => match class_of(checked) {
            Class::SerialInsert => {
                drop(sent);
                left(alloc, "serial")
            }
            Class::Read | Class::LockingRead | Class::Write => Ok(Asked::Runs(sent)),
        },
    }
}

/// Whether a number of microseconds since 2000-01-01 00:00 UTC is in the range of moments.
fn is_moment(micros: i64) -> bool
    ensures { IsTrue result ↔ IsMoment micros }
{
    micros >= FIRST_MOMENT && micros <= LAST_MOMENT
}

/// Whether a statement stays as it is at a moment: no time function stands in it.
#[tactic(auto, using(crate::proofs::Timeless::runnable_kept))]
fn is_kept(catalogue: &Catalogue, moment: i64, checked: &Checked) -> bool
    ensures within { IsTrue result → IsMoment moment }
    ensures kept { (m : ℤ) → IsTrue result → at_moment m checked.now ≡ checked.now }
{
    is_moment(moment) && is_runnable(catalogue, checked)
}

/// What a checked statement asks for at a moment. One that stays as it is is not copied.
fn checked_asks(
    alloc: Global,
    catalogue: &Catalogue,
    moment: i64,
    checked: Checked,
) -> Result<Asked, NoMemory>
    ensures { IfOk result (λ asked.
        (¬ (IsMoment moment)
        × (asked_of asked ≡ refusal (codes "22008") (text_of_code (codes "22008"))))
        ⊎ (IsMoment moment × (asked_of asked ≡ checked_asks moment checked))) }
{
    if is_kept(catalogue, moment, &checked) {
        return class_asks(alloc, checked);
    }
    let asked = rewritten_asks(alloc, moment, &checked);
    drop(checked);
    asked
}

/// What one statement asks for.
fn statement_asks(
    alloc: Global,
    catalogue: &Catalogue,
    moment: i64,
    statement: &Statement,
) -> Result<Asked, NoMemory>
    requires within { IsWithin catalogue.now }
    ensures { IfOk result (λ asked. (text : Sequence ℕ) → IsTextOf text (statement.now ∷ [])
        → Asks catalogue.now moment text (asked_of asked)) }
{
    if let Some(name) = left_out(statement) {
        return left(alloc, name);
    }
    match check(alloc, catalogue, statement, None) {
        Ok(checked) => checked_asks(alloc, catalogue, moment, checked),
        Err(CheckFault::NoMemory) => Err(NoMemory),
        Err(CheckFault::Refused { code, name }) => Ok(Asked::Refused {
            code,
            message: about(alloc, statement, code, name.as_str())?,
        }),
    }
}

/// What the statements of a text ask for.
fn statements_ask(
    alloc: Global,
    catalogue: &Catalogue,
    moment: i64,
    statements: &[Statement],
) -> Result<Asked, NoMemory>
    requires within { IsWithin catalogue.now }
    ensures { IfOk result (λ asked. (text : Sequence ℕ) → IsTextOf text statements.now
        → Asks catalogue.now moment text (asked_of asked)) }
{
    match statements {
        [] => Ok(Asked::Nothing),
        [statement] => statement_asks(alloc, catalogue, moment, statement),
        _ => left(alloc, "several statements"),
    }
}

/// What a text of characters asks for.
fn text_asks(
    alloc: Global,
    catalogue: &Catalogue,
    moment: i64,
    text: &str,
) -> Result<Asked, NoMemory>
    requires short { length text.now < 2 ^ 32 }
    requires within { IsWithin catalogue.now }
    ensures { IfOk result (λ asked. Asks catalogue.now moment text.now (asked_of asked)) }
{
    match read_statements(alloc, text) {
        Ok(statements) => statements_ask(alloc, catalogue, moment, statements.as_slice()),
        Err(fault) => unread(alloc, fault),
    }
}

/// What bytes ask for over the tables of a catalogue, at a moment.
///
/// Units: the moment is in microseconds since 2000-01-01 00:00 UTC.
pub(crate) fn asked_by(
    alloc: Global,
    catalogue: &Catalogue,
    moment: i64,
    text: &[u8],
) -> Result<Asked, NoMemory>
    requires short { length text.now < 2 ^ 32 }
    requires within { IsWithin catalogue.now }
    ensures { IfOk result (λ asked. IsAsked catalogue.now moment text.now (asked_of asked)) }
{
    match str::from_utf8(text) {
        Ok(said) => text_asks(alloc, catalogue, moment, said),
        Err(_) => refused(alloc, NO_TEXT),
    }
}
