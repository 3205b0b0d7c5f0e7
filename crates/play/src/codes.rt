//! The texts of codes.
//!
//! Source: PostgreSQL, "PostgreSQL Error Codes". House rule: the texts.
ghost use Rattle.std.specs.Prelude.{◌≡◌, IfOk, bytes_eq};
ghost use Rattle.play.specs.Codes.{about, number_text, outside, running_text, statement_text, text_of_code};

use pool_base::{Code, NoMemory, Text};
use sql_profile::Statement;
use std::alloc::Global;

/// Whether a code is this one.
fn is(code: Code, wanted: &[u8; 5]) -> bool
    ensures { result ≡ bytes_eq code.bytes wanted.now }
{
    code.bytes == *wanted
}

/// The text of a code that has one text, without a name.
#[tactic(auto, unfolding(crate::specs::Codes::text_of_code))]
pub(crate) fn text_of_code(code: Code) -> &'static str
    ensures { result.now ≡ text_of_code code.bytes }
{
    if is(code, b"22003") {
        "integer out of range"
    } else if is(code, b"22007") {
        "invalid moment"
    } else if is(code, b"22008") {
        "moment out of range"
    } else if is(code, b"22012") {
        "division by zero"
    } else if is(code, b"22021") {
        "invalid UTF-8"
    } else if is(code, b"22P02") {
        "invalid input text"
    } else {
        statement_text(code)
    }
}

/// The text of a code that is about no value.
#[tactic(auto, unfolding(crate::specs::Codes::statement_text))]
fn statement_text(code: Code) -> &'static str
    ensures { result.now ≡ statement_text code.bytes }
{
    if is(code, b"2200H") {
        "serial numbers are spent"
    } else if is(code, b"2201W") {
        "LIMIT must not be negative"
    } else if is(code, b"42804") {
        "types do not fit"
    } else if is(code, b"42P02") {
        "there is no parameter"
    } else if is(code, b"54011") {
        "too many columns"
    } else {
        running_text(code)
    }
}

/// The text of a code that comes as a statement runs.
#[tactic(auto, unfolding(crate::specs::Codes::running_text))]
fn running_text(code: Code) -> &'static str
    ensures { result.now ≡ running_text code.bytes }
{
    if is(code, b"23502") {
        "null value in a NOT NULL column"
    } else if is(code, b"23505") {
        "duplicate key"
    } else if is(code, b"40001") {
        "could not serialize access due to concurrent update"
    } else if is(code, b"40P01") {
        "deadlock detected"
    } else if is(code, b"53200") {
        "out of memory"
    } else if is(code, b"54000") {
        "a limit was passed"
    } else {
        "refused by the backends"
    }
}

/// The text of what is not taken.
pub(crate) fn outside(alloc: Global, name: &str) -> Result<Text, NoMemory>
    ensures { IfOk result (λ text. text ≡ outside name.now) }
{
    Ok(Text::from_string(format!(in alloc; "not in the profile: {name}")?))
}

/// The text of 42601 that a check finds.
fn number_text(alloc: Global, statement: &Statement, name: &str) -> Result<Text, NoMemory>
    ensures { IfOk result (λ text. text ≡ number_text statement.now name.now) }
{
    match statement {
        Statement::Update(_) => {
            Ok(Text::from_string(format!(in alloc; "column set twice: {name}")?))
        }
        _ => Text::from_str(alloc, "wrong number of values"),
    }
}

/// The text of a code that a check finds in a statement, with the name of what it is about.
#[tactic(auto, unfolding(crate::specs::Codes::about))]
pub(crate) fn about(
    alloc: Global,
    statement: &Statement,
    code: Code,
    name: &str,
) -> Result<Text, NoMemory>
    ensures { IfOk result (λ text. text ≡ about statement.now code.bytes name.now) }
{
    match &code.bytes {
        b"0A000" => outside(alloc, name),
        b"42601" => number_text(alloc, statement, name),
        b"42701" => Ok(Text::from_string(format!(in alloc; "column named twice: {name}")?)),
        b"42703" => Ok(Text::from_string(format!(in alloc; "no such column: {name}")?)),
        b"42P01" => Ok(Text::from_string(format!(in alloc; "no such table: {name}")?)),
        _ => Text::from_str(alloc, text_of_code(code)),
    }
}
