//! Why a statement is refused.
ghost use Rattle.std.specs.Prelude.{◌≡◌, [], codes};
ghost use Rattle.typed_sql.specs.declared.fault.CheckFault.TheVariants.{NoMemory};
ghost use Rattle.typed_sql.specs.Steps.{fault};
ghost use Rattle.typed_sql.specs.Meaning.{IsFault};

use pool_base::{Code, NoMemory, Text};
use std::alloc::{AllocError, Global};

/// The first fault of a statement in the order of its text.
#[derive(Debug, PartialEq, Eq, Drop)]
pub enum CheckFault {
    /// It is refused with this code; the name is what the code's text has a place for, and else
    /// empty.
    Refused { code: Code, name: Text },
    /// Memory was refused.
    NoMemory,
}

impl From<NoMemory> for CheckFault {
    ghost from_gives = { λ _ fault. fault ≡ NoMemory };

    fn from(_: NoMemory) -> CheckFault {
        CheckFault::NoMemory
    }
}

impl From<AllocError> for CheckFault {
    ghost from_gives = { λ _ fault. fault ≡ NoMemory };

    fn from(_: AllocError) -> CheckFault {
        CheckFault::NoMemory
    }
}

/// A fault whose text has no place for a name.
fn nameless(alloc: Global, code: Code) -> CheckFault
    ensures { IsFault result (fault code.bytes []) }
{
    match Text::from_str(alloc, "") {
        Ok(name) => CheckFault::Refused { code, name },
        Err(_) => CheckFault::NoMemory,
    }
}

/// A fault at a name.
fn named(code: Code, name: &Text) -> CheckFault
    ensures { IsFault result (fault code.bytes name.now) }
{
    match name.clone() {
        Ok(name) => CheckFault::Refused { code, name },
        Err(_) => CheckFault::NoMemory,
    }
}

/// A string is no text form of a value of its type.
pub(crate) fn no_value(alloc: Global, code: Code) -> CheckFault
    ensures { IsFault result (fault code.bytes []) }
{
    nameless(alloc, code)
}

/// The types of operands do not fit.
///
/// Source: PostgreSQL, "PostgreSQL Error Codes", `datatype_mismatch`.
pub(crate) fn types_do_not_fit(alloc: Global) -> CheckFault
    ensures { IsFault result (fault (codes "42804") []) }
{
    nameless(alloc, Code { bytes: *b"42804" })
}

/// A parameter where there are none: `undefined_parameter`.
pub(crate) fn no_parameter(alloc: Global) -> CheckFault
    ensures { IsFault result (fault (codes "42P02") []) }
{
    nameless(alloc, Code { bytes: *b"42P02" })
}

/// There is no column of that name: `undefined_column`.
pub(crate) fn no_column(name: &Text) -> CheckFault
    ensures { IsFault result (fault (codes "42703") name.now) }
{
    named(Code { bytes: *b"42703" }, name)
}

/// There is no table of that name: `undefined_table`.
pub fn no_table(name: &Text) -> CheckFault
    ensures { IsFault result (fault (codes "42P01") name.now) }
{
    named(Code { bytes: *b"42P01" }, name)
}

/// A column is named twice: `duplicate_column`.
pub fn column_twice(name: &Text) -> CheckFault
    ensures { IsFault result (fault (codes "42701") name.now) }
{
    named(Code { bytes: *b"42701" }, name)
}

/// A row has more or fewer cells than there are columns: `syntax_error`.
pub fn wrong_number(alloc: Global) -> CheckFault
    ensures { IsFault result (fault (codes "42601") []) }
{
    nameless(alloc, Code { bytes: *b"42601" })
}

/// A column is set twice: `syntax_error`.
pub fn column_set_twice(name: &Text) -> CheckFault
    ensures { IsFault result (fault (codes "42601") name.now) }
{
    named(Code { bytes: *b"42601" }, name)
}

/// A list has too many items: `too_many_columns`.
pub fn too_many_columns(alloc: Global) -> CheckFault
    ensures { IsFault result (fault (codes "54011") []) }
{
    nameless(alloc, Code { bytes: *b"54011" })
}

/// What the profile of SQL leaves out: `feature_not_supported`.
pub fn not_in_profile(alloc: Global, what: &str) -> CheckFault
    ensures { IsFault result (fault (codes "0A000") what.now) }
{
    match Text::from_str(alloc, what) {
        Ok(name) => CheckFault::Refused {
            code: Code { bytes: *b"0A000" },
            name,
        },
        Err(_) => CheckFault::NoMemory,
    }
}
