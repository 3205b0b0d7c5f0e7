//! The types of a list of parameters.
ghost use Rattle.std.specs.Prelude.{◌≡◌, ◌++◌, IfOk, codes, map};
ghost use Rattle.std.specs.Fmt.{decimal};
ghost use Rattle.std.specs.Option.{option_map};
ghost use Rattle.typed_sql.specs.Meaning.{Finds, IsFault};
ghost use Rattle.typed_sql.specs.Places.{or_text};
ghost use Rattle.typed_sql.specs.Steps.{fault};
ghost use Rattle.catalogue.specs.Statements.{kind_numbered, kinds_listed, known_first};

use pg_values::{ColType, kind_of};
use pool_base::{List, NoMemory};
use std::alloc::Global;
use typed_sql::{CheckFault, Known, not_in_profile, or_text};

/// The fault of a number that is of no type.
fn no_kind(alloc: Global, number: u32) -> CheckFault
    ensures { IsFault result (fault (codes "0A000") (codes "parameter type " ++ decimal number)) }
{
    match format!(in alloc; "parameter type {number}") {
        Ok(name) => not_in_profile(alloc, name.as_str()),
        Err(_) => CheckFault::NoMemory,
    }
}

/// The type of a number of the protocol; 0 is none.
fn kind_numbered(alloc: Global, number: u32) -> Result<Option<ColType>, CheckFault>
    ensures { Finds (λ kind. kind) result (kind_numbered number) }
{
    if number == 0 {
        return Ok(None);
    }
    match kind_of(number) {
        Some(kind) => Ok(Some(kind)),
        None => Err(no_kind(alloc, number)),
    }
}

/// The types of a list, up to the first number that is of no type.
fn kinds_listed(alloc: Global, numbers: &[u32]) -> Result<Known, CheckFault>
    ensures { Finds (λ known. known.items) result (kinds_listed numbers.now) }
{
    let mut known = List::new(alloc);
    for number in numbers {
        let kind = kind_numbered(alloc, *number)?;
        known.push(kind)?;
    }
    Ok(known.into_vec())
}

/// What is known before a statement: the types of the list, if there is one.
pub(crate) fn known_first(alloc: Global, kinds: Option<&[u32]>) -> Result<Known, CheckFault>
    ensures { Finds (λ known. known.items) result
        (known_first (option_map (λ k. k.now) kinds.entry)) }
{
    match kinds {
        Some(numbers) => kinds_listed(alloc, numbers),
        None => Ok(Vec::new(alloc)),
    }
}

/// The types of all parameters: text where nothing gave one.
pub(crate) fn all_kinds(alloc: Global, known: &Known) -> Result<List<ColType>, NoMemory>
    ensures { IfOk result (λ kinds. kinds ≡ map or_text known.now.items) }
{
    let mut kinds = List::new(alloc);
    for kind in known.as_slice() {
        kinds.push(or_text(*kind))?;
    }
    Ok(kinds)
}
