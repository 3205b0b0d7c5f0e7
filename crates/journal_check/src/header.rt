//! The world that a journal's header says.
ghost use Rattle.std.specs.Prelude.{◌≡◌, ◌<◌, ◌==◌, ◌||◌, ℕ, IfOk, length};
ghost use Rattle.pool_base.specs.Sets.{has};
ghost use Rattle.pool_config.specs.Configuration.{IsAllowed};
ghost use Rattle.schema.specs.Allowed.{AreAllowed};
ghost use Rattle.schema.specs.Ranges.{AreInRange};
ghost use Rattle.session_seat.specs.Shared.{AreFirst};
ghost use Rattle.play_laws.specs.Journals.{IsStartOf};

use crate::fault::{JournalFault, of_config, of_schema};
use crate::lines::{line_count, unmarked};
use pool_base::{BackendId, BackendSet};
use pool_config::{Config, parse_config};
use schema::{Catalogue, read_schema};
use schema_print::tables_in_range;
use session_seat::policy_of;
use sql_profile::schemas_are_allowed;
use std::alloc::Global;
use world_program::Start;

/// A text as long as this is not read.
const TEXT_LIMIT: usize = 4_294_967_295;

/// The configuration of a text whose first line stands behind so many lines.
fn read_config(alloc: Global, text: &[u8], before: usize) -> Result<Config, JournalFault>
    ensures { IfOk result (λ config. IsAllowed config) }
{
    if text.len() >= TEXT_LIMIT {
        return Err(JournalFault::BadLine(before.saturating_add(1)));
    }
    match parse_config(alloc, text) {
        Ok(config) => Ok(config),
        Err(fault) => Err(of_config(fault, before, line_count(text))),
    }
}

/// The tables of a text whose first line stands behind so many lines.
fn read_tables(alloc: Global, text: &[u8], before: usize) -> Result<Catalogue, JournalFault>
    ensures in_range { IfOk result AreInRange }
    ensures allowed { IfOk result AreAllowed }
{
    if text.len() >= TEXT_LIMIT {
        return Err(JournalFault::BadLine(before.saturating_add(1)));
    }
    match read_schema(alloc, text) {
        Ok(tables) => {
            tables_in_range();
            schemas_are_allowed();
            Ok(tables)
        }
        Err(fault) => Err(of_schema(fault, before)),
    }
}

/// The set with that backend in it.
fn joined(set: BackendSet, b: BackendId) -> BackendSet
    ensures { (k : ℕ) → k < 8 → has result.bits k ≡ (k == b.number || has set.bits k) }
{
    set.with(b)
}

/// The backends below this number.
fn first_of(count: usize) -> BackendSet
    ensures { AreFirst result.bits count }
{
    let mut set = BackendSet::EMPTY;
    for number in 0..8 {
        if usize::from(number) < count {
            set = joined(set, BackendId { number });
        }
    }
    set
}

/// The world of a configuration and tables, before its first event.
fn start_of(config: &Config, catalogue: Catalogue) -> Start
    ensures { IsStartOf config.now catalogue result }
{
    Start {
        catalogue,
        policy: policy_of(config),
        attached: first_of(config.nodes.len()),
    }
}

/// A configuration, and the world of it and the tables that a text says, whose first line stands
/// behind so many lines.
fn with_tables(
    alloc: Global,
    config: Config,
    text: &[u8],
    before: usize,
) -> Result<(Config, Start), JournalFault>
    ensures config { IfOk result (λ read. read.0 ≡ config) }
    ensures begins { IfOk result (λ read. IsStartOf read.0 read.1.catalogue read.1) }
    ensures in_range { IfOk result (λ read. AreInRange read.1.catalogue) }
    ensures allowed { IfOk result (λ read. AreAllowed read.1.catalogue) }
{
    match read_tables(alloc, text, before) {
        Ok(tables) => {
            let start = start_of(&config, tables);
            Ok((config, start))
        }
        Err(fault) => {
            drop(config);
            Err(fault)
        }
    }
}

/// The configuration of a header that stands in front, behind so many lines, and the world that the
/// header says.
pub(crate) fn read_header(
    alloc: Global,
    bytes: &[u8],
    before: usize,
) -> Result<(Config, Start), JournalFault>
    ensures config { IfOk result (λ read. IsAllowed read.0) }
    ensures begins { IfOk result (λ read. IsStartOf read.0 read.1.catalogue read.1) }
    ensures in_range { IfOk result (λ read. AreInRange read.1.catalogue) }
    ensures allowed { IfOk result (λ read. AreAllowed read.1.catalogue) }
{
    let (settings, rest) = unmarked(alloc, b"config ", bytes)?;
    let (schema, _) = unmarked(alloc, b"schema ", rest)?;
    let behind = before.saturating_add(line_count(settings.as_slice()));
    let config = read_config(alloc, settings.as_slice(), before)?;
    with_tables(alloc, config, schema.as_slice(), behind)
}
