//! What a statement gives a transaction.
ghost use Rattle.std.specs.Prelude.{◌≡◌, ℕ, IfOk, Ok, Err, Option, length, map};
ghost use Rattle.sql_eval.specs.Effects.{Effect, Reads, Writes, IsRead, IsKeyedAt};
ghost use Rattle.backend_trait.specs.Typed.{AreAllStored};
ghost use Rattle.backend_trait.specs.Effect.{effect_of, keys_in, place_changed, changes_of, table_in, number_from, given_as, IsPositive};
ghost use Rattle.backend_trait.specs.Keys.{place};
ghost use Rattle.backend_trait.specs.Rows.{laid_over};
ghost use Rattle.backend_trait.specs.Runnable.{IsRunnable};
ghost use Rattle.outcomes.specs.Spots.{place_of};
ghost use Rattle.outcomes.specs.Log.{rows_of};
ghost use Rattle.outcomes.specs.Indexed.{rows_in_index};
ghost use Rattle.outcomes.specs.Given.{given_in};

use crate::change::ChangeSet;
use crate::index::Index;
use crate::layers::Layers;
use crate::sight::Sight;
use crate::spot::Spot;
use backend_trait::{Answer, Catalogue, Checked};
use catalogue::CheckedBody;
use pg_values::Value;
use pool_base::{Code, List, NoMemory};
use sql_eval::{Change, EvalFault, ReadEffect, TableView, WriteEffect, eval_read, eval_write};
use std::alloc::Global;

/// What a statement gives its transaction.
#[derive(Drop)]
pub enum Outcome {
    /// The code of the first fault.
    Fails(Code),
    Gives {
        answer: Answer,
        changes: Vec<Change>,
        /// The places that it wants.
        places: Vec<Spot>,
    },
}

/// The table of a statement, if it has one.
pub fn table_in(statement: &Checked) -> Option<u8>
    ensures { result ≡ table_in statement.now }
{
    match &statement.body {
        CheckedBody::Read(read) => read.table,
        CheckedBody::Insert(insert) => Some(insert.table),
        CheckedBody::Change(change) => Some(change.table),
        CheckedBody::Remove(remove) => Some(remove.table),
    }
}

/// The number from which a statement draws.
fn number_from(next: Option<i64>) -> i64
    ensures { result ≡ number_from next }
{
    match next {
        Some(next) => next,
        None => 1,
    }
}

/// The places of keys of a table.
fn spots_in(alloc: Global, table: u8, keys: List<Value>) -> Result<Vec<Spot>, NoMemory>
    ensures { IfOk result (λ spots. map place_of spots.items ≡ map (place table) keys) }
{
    let mut spots = Vec::new(alloc);
    for key in keys.into_vec() {
        spots.push(Spot { table, key })?;
    }
    Ok(spots)
}

/// The places of keys of a table, where there is one.
fn spots_of_keys(alloc: Global, table: Option<u8>, keys: List<Value>) -> Result<Vec<Spot>, NoMemory>
    ensures { IfOk result (λ spots. map place_of spots.items ≡ keys_in table keys) }
{
    match table {
        None => Ok(Vec::new(alloc)),
        Some(table) => spots_in(alloc, table, keys),
    }
}

/// The places of changes.
fn spots_of_changes(alloc: Global, changes: &[Change]) -> Result<Vec<Spot>, NoMemory>
    ensures { IfOk result (λ spots. map place_of spots.items ≡ map place_changed changes.now) }
{
    let mut spots = Vec::new(alloc);
    for change in changes {
        let key = change.key.clone()?;
        spots.push(Spot {
            table: change.table,
            key,
        })?;
    }
    Ok(spots)
}

/// What a read gives.
fn read_given(alloc: Global, table: Option<u8>, read: ReadEffect) -> Result<Outcome, NoMemory>
    ensures { IfOk result (λ outcome. given_in outcome ≡ given_as table (Ok (Reads read))) }
{
    let ReadEffect { rows, keys } = read;
    let places = spots_of_keys(alloc, table, keys)?;
    Ok(Outcome::Gives {
        answer: Answer::Rows(rows),
        changes: Vec::new(alloc),
        places,
    })
}

/// What a write gives.
fn write_given(alloc: Global, write: WriteEffect) -> Result<Outcome, NoMemory>
    requires { write.count ≡ length write.changes }
    ensures { (table : Option ℕ) → IfOk result (λ outcome. given_in outcome
        ≡ given_as table (Ok (Writes write.changes))) }
{
    let places = spots_of_changes(alloc, write.changes.as_slice())?;
    Ok(Outcome::Gives {
        answer: Answer::Count(write.count),
        changes: write.changes.into_vec(),
        places,
    })
}

/// The code of a statement that gives nothing.
fn failed(fault: EvalFault) -> Result<Outcome, NoMemory>
    ensures { (table : Option ℕ) (effect : Effect) → (IsRead (Err fault) effect)
        → IfOk result (λ outcome. given_in outcome ≡ given_as table effect.given) }
{
    match fault {
        EvalFault::Refused { code, .. } => Ok(Outcome::Fails(code)),
        EvalFault::NoMemory => Err(NoMemory),
    }
}

/// What a statement gives on what is seen.
fn outcome_on<V: TableView>(
    alloc: Global,
    catalogue: &Catalogue,
    view: &V,
    next: Option<i64>,
    statement: &Checked,
) -> Result<Outcome, NoMemory>
    requires runnable { IsRunnable catalogue.now statement.now }
    requires keyed { IsKeyedAt catalogue.now (V.rows view.now) (table_in statement.now) }
    requires positive { IsPositive next }
    ensures { IfOk result (λ outcome. given_in outcome ≡ (effect_of catalogue.now statement.now
        (V.rows view.now) next).given) }
{
    match &statement.body {
        CheckedBody::Read(read) => match eval_read(alloc, catalogue, statement, view) {
            Ok(given) => read_given(alloc, read.table, given),
            Err(fault) => failed(fault),
        },
        CheckedBody::Insert(_) | CheckedBody::Change(_) | CheckedBody::Remove(_) =>
            match eval_write(alloc, catalogue, statement, view, number_from(next)) {
                Ok(given) => write_given(alloc, given),
                Err(fault) => failed(fault),
            },
    }
}

/// What a statement gives a transaction that sees those sets and then its own changes, where its
/// table's next serial number is that: the effect of the statement on what is seen. What is seen
/// stands in the tables.
pub fn outcome_of(
    alloc: Global,
    catalogue: &Catalogue,
    sets: &[ChangeSet],
    own: &[Change],
    next: Option<i64>,
    statement: &Checked,
) -> Result<Outcome, NoMemory>
    requires runnable { IsRunnable catalogue.now statement.now }
    requires stored { AreAllStored catalogue.now
        (laid_over (changes_of own.now) (rows_of sets.now)) }
    requires positive { IsPositive next }
    ensures { IfOk result (λ outcome. given_in outcome ≡ (effect_of catalogue.now statement.now
        (laid_over (changes_of own.now) (rows_of sets.now)) next).given) }
{
    let sight = Sight::new(alloc, sets, own)?;
    outcome_on(alloc, catalogue, &sight, next, statement)
}

/// What a statement gives a transaction that sees the first sets of an index, so many of them, and
/// then its own changes. Only the rows are looked at that the statement looks at.
pub fn outcome_at(
    alloc: Global,
    catalogue: &Catalogue,
    index: &Index,
    mark: usize,
    own: &[Change],
    next: Option<i64>,
    statement: &Checked,
) -> Result<Outcome, NoMemory>
    requires runnable { IsRunnable catalogue.now statement.now }
    requires stored { AreAllStored catalogue.now
        (laid_over (changes_of own.now) (rows_in_index index.now mark)) }
    requires positive { IsPositive next }
    ensures { IfOk result (λ outcome. given_in outcome ≡ (effect_of catalogue.now statement.now
        (laid_over (changes_of own.now) (rows_in_index index.now mark)) next).given) }
{
    let layers = Layers::new(alloc, own, index, mark)?;
    outcome_on(alloc, catalogue, &layers, next, statement)
}
