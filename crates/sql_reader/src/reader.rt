//! The reader of texts.
ghost use Rattle.std.specs.Prelude.{◌≡◌, ◌<◌, ◌^◌, length, List as Sequence, IfOk, IfErr, Err};
ghost use Rattle.sql_tokens.specs.declared.token.Placed.{Placed as PlacedToken};
ghost use Rattle.sql_tokens.specs.Tokens.{TokensOf};
ghost use Rattle.sql_reader.specs.TextReading.{text_at};
ghost use Rattle.sql_reader.specs.Text.{tokens_of, places_of, told_of, AreRead, IsTextOf, IsReadAs, AreRefusedBy, IsRefusedBy, IsToldAs};

use crate::fault::{SqlFault, fault_of};
use crate::refusal::{place_at, refusal_at};
use crate::text_fault::{TextError, TextFault};
use pool_base::{List, NoMemory};
use sql_tokens::{Placed, Token, read_tokens};
use sql_tree::Statement;
use std::alloc::Global;

/// The tokens, and their places.
fn apart(alloc: Global, placed: List<Placed>) -> Result<(List<Token>, List<u32>), NoMemory>
    ensures { IfOk result (λ x. (x.0 ≡ tokens_of placed) × (x.1 ≡ places_of placed)) }
{
    let mut tokens = List::new(alloc);
    let mut places = List::new(alloc);
    tokens.reserve(placed.len())?;
    places.reserve(placed.len())?;
    for one in placed.into_vec() {
        let Placed { token, place } = one;
        tokens.push(token)?;
        places.push(place)?;
    }
    Ok((tokens, places))
}

/// What a fault of the tokens is told as.
fn told(
    alloc: Global,
    tokens: &[Token],
    places: &[u32],
    size: u32,
    fault: TextFault,
) -> Result<SqlFault, NoMemory>
    ensures { IfOk result (λ e. e ≡ told_of tokens.now places.now size fault) }
{
    match fault {
        TextFault::Syntax { left, awaited } => {
            let refusal = refusal_at(alloc, tokens, places, size, left, awaited)?;
            Ok(fault_of(refusal))
        }
        TextFault::WithoutFrom { left } => Ok(SqlFault::Syntax(place_at(places, size, left))),
        TextFault::TooDeep { .. } | TextFault::TooMany { .. } => Ok(SqlFault::TooLong),
    }
}

/// Reads the statements that the tokens of a text of this size are.
fn read_placed(alloc: Global, placed: List<Placed>, size: u32) -> Result<List<Statement>, SqlFault>
    ensures found { IfOk result (AreRead placed) }
    ensures only { (all : _) → AreRead placed all → IsReadAs result all }
    ensures refused { IfErr result (AreRefusedBy placed size) }
    ensures told { (fault : _) → text_at 64 (tokens_of placed) ≡ Err fault
        → IsToldAs result (told_of (tokens_of placed) (places_of placed) size fault) }
{
    let (tokens, places) = apart(alloc, placed)?;
    match crate::text::read_statements(alloc, tokens.as_slice()) {
        Ok(statements) => Ok(statements),
        Err(TextError::NoMemory) => Err(SqlFault::NoMemory),
        Err(TextError::Fault(fault)) => {
            Err(told(alloc, tokens.as_slice(), places.as_slice(), size, fault)?)
        }
    }
}

/// Reads the statements of a text.
///
/// Shape: docs/SQL.md. Nothing may stand between two `;`, before the first and behind the last.
/// Units: a place counts bytes, from 0.
/// Source: PostgreSQL 15, "SQL Commands", of which this is a part.
pub fn read_statements(alloc: Global, text: &str) -> Result<List<Statement>, SqlFault>
    requires { length text.now < 2 ^ 32 }
    // What is read is of the grammar and within the limits, and what is so is read.
    ensures found { IfOk result (IsTextOf text.now) }
    ensures only { (all : _) → IsTextOf text.now all → IsReadAs result all }

    // What is refused goes wrong at the place that is told, or passes a limit.
    ensures refused { IfErr result (IsRefusedBy text.now) }
    // Which it is, and by which name, follows from the tokens.
    ensures told { (placed : Sequence PlacedToken) (fault : _) → TokensOf text.now placed
        → text_at 64 (tokens_of placed) ≡ Err fault
        → IsToldAs result (told_of (tokens_of placed) (places_of placed) (length text.now) fault) }
{
    let placed = read_tokens(alloc, text)?;
    read_placed(alloc, placed, text.len() as u32)
}
