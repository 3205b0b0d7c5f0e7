//! Reads a schema.
ghost use Rattle.std.specs.Prelude.{◌≡◌, ◌<◌, ℕ, length, List as Sequence, IfOk, Err};
ghost use Rattle.schema.specs.declared.catalogue.TableDef.{TableDef as Table};
ghost use Rattle.schema.specs.declared.fault.SchemaFault.TheVariants.{BadLine};
ghost use Rattle.schema.specs.declared.open.Place.{Place as Standing};
ghost use Rattle.schema.specs.Steps.{Steps, with_tables};
ghost use Rattle.schema.specs.Reading.{Says, IsFaulty, IsCatalogue, tokens_of, IsRead, IsStep, AreTables, IsRefusal};

use crate::catalogue::{Catalogue, TableDef};
use crate::constant::read_string;
use crate::fault::{Refusal, SchemaFault, Stop};
use crate::open::Place;
use crate::step::step;
use crate::text::{as_text, line_of};
use named_list::NamedList;
use pool_base::NoMemory;
use sql_tokens::{Placed, Token, read_tokens};
use std::alloc::Global;

/// The catalogue of the tables that a text says.
///
/// Shape: docs/SCHEMAS.md.
/// Errors: the first token that is not of the grammar or breaks a rule decides; a fault at the end
/// is in the last line. A byte that is of no UTF-8 is a token of no grammar, wherever it stands.
pub fn read_schema(alloc: Global, text: &[u8]) -> Result<Catalogue, SchemaFault>
    requires { length text.now < 4294967295 }
    // What is read is what the text says.
    ensures found { IfOk result (λ tables. Says text.now tables) }
    // What the text says is read, unless memory runs out.
    ensures only { (tables : Sequence Table) → Says text.now tables → IsCatalogue tables result }

    // Which line it is.
    ensures bad { (line : ℕ) → result ≡ Err (BadLine line) → IsFaulty text.now line }
{
    let text = as_text(alloc, text)?;
    let tokens = read_tokens(alloc, text.as_str())?;
    match read_tables(alloc, tokens.as_slice()) {
        Ok(tables) => Ok(Catalogue::new(tables)),
        Err(Refusal::At(place)) => {
            let line = line_of(text.as_bytes(), place as usize);
            Err(SchemaFault::BadLine(line))
        }
        Err(Refusal::AtEnd) => {
            let line = line_of(text.as_bytes(), text.len().saturating_sub(1));
            Err(SchemaFault::BadLine(line))
        }
        Err(Refusal::NoMemory) => Err(SchemaFault::NoMemory),
    }
}

/// The tables that the tokens are a schema of.
fn read_tables(alloc: Global, tokens: &[Placed]) -> Result<NamedList<TableDef>, Refusal>
    ensures found { IfOk result (λ tables. IsRead (tokens_of tokens.now) tables) }
    ensures only { (tables : Sequence Table) → IsRead (tokens_of tokens.now) tables
        → AreTables tables result }
    ensures refused { IsRefusal tokens.now result }
{
    let mut tables = NamedList::new(alloc);
    let mut place = Place::Create;
    let mut left = tokens;
    while let [placed, rest @ ..] = left {
        match advance(alloc, &mut tables, place, &placed.token) {
            Ok(next) => place = next,
            Err(Stop::Refused) => return Err(Refusal::At(placed.place)),
            Err(Stop::NoMemory) => return Err(Refusal::NoMemory),
        }
        left = rest;
    }
    match place {
        Place::Create => Ok(tables),
        other => {
            drop(other);
            Err(Refusal::AtEnd)
        }
    }
}

/// Where a token leads.
fn advance(
    alloc: Global,
    tables: &mut NamedList<TableDef>,
    place: Place,
    token: &Token,
) -> Result<Place, Stop>
    ensures ok { IfOk (with_tables tables.new result)
        (λ to. Steps (tables.old, place) token.now to) }
    ensures only { (to : Sequence Table × Standing) → Steps (tables.old, place) token.now to
        → IsStep to (with_tables tables.new result) }
{
    match read_string(alloc, &place, token) {
        Ok(read) => step(alloc, tables, place, read, token),
        Err(NoMemory) => {
            drop(place);
            Err(Stop::NoMemory)
        }
    }
}
