//! Who holds what a request wants.
ghost use Rattle.std.specs.Prelude.{◌≡◌, ◌+◌, ◌≤◌, length, map};
ghost use Rattle.outcomes.specs.Spots.{place_of};
ghost use Rattle.plain_store.specs.Phases.{claim_of, has_table};
ghost use Rattle.plain_store.specs.Deciding.{share, clash, are_in_one, holds_work, holds_phase, taken_from};

use crate::data::{Phase, Wanted, Work};
use outcomes::{Spot, has_spot, has_spot_in};

/// Whether two lists of places share one.
fn share(a: &[Spot], b: &[Spot]) -> bool
    ensures { result ≡ share (map place_of a.now) (map place_of b.now) }
{
    let [first, others @ ..] = a else {
        return false;
    };
    has_spot(b, first) || share(others, b)
}

/// Whether two that want these conflict.
pub(crate) fn clash(a: Wanted<'_>, b: Wanted<'_>) -> bool
    ensures { result ≡ clash (claim_of a.entry) (claim_of b.entry) }
{
    match (a, b) {
        (Wanted::Places(places), Wanted::Places(others)) => share(places, others),
        (Wanted::Places(places), Wanted::Table(table)) => has_spot_in(places, table),
        (Wanted::Table(table), Wanted::Places(places)) => has_spot_in(places, table),
        (Wanted::Table(table), Wanted::Table(other)) => table == other,
    }
}

/// Whether the lock of a table is held.
pub(crate) fn has_table(tables: &[u8], table: u8) -> bool
    ensures { result ≡ has_table tables.now table }
{
    let [first, others @ ..] = tables else {
        return false;
    };
    table == *first || has_table(others, table)
}

/// Whether one of the places is in one of the tables.
fn are_in_one(places: &[Spot], tables: &[u8]) -> bool
    ensures { result ≡ are_in_one (map place_of places.now) tables.now }
{
    let [first, others @ ..] = places else {
        return false;
    };
    has_table(tables, first.table) || are_in_one(others, tables)
}

/// Whether a transaction holds what conflicts.
fn holds_work(wanted: Wanted<'_>, work: &Work) -> bool
    ensures { result ≡ holds_work (claim_of wanted.entry) work.now }
{
    let held = work.held.as_slice();
    let tables = work.tables.as_slice();
    match wanted {
        Wanted::Places(places) => share(places, held) || are_in_one(places, tables),
        Wanted::Table(table) => has_table(tables, table) || has_spot_in(held, table),
    }
}

pub(crate) fn holds_phase(wanted: Wanted<'_>, phase: &Phase) -> bool
    ensures { result ≡ holds_phase (claim_of wanted.entry) phase.now }
{
    match phase {
        Phase::Alive(work) => holds_work(wanted, work),
        Phase::Absent | Phase::Dead => false,
    }
}

/// Whether another session than `s` holds what conflicts, of those from the number `from` on.
pub(crate) fn taken_from(from: usize, s: usize, wanted: Wanted<'_>, phases: &[Phase]) -> bool
    requires { from + length phases.now ≤ 65 }
    ensures { result ≡ taken_from from s (claim_of wanted.entry) phases.now }
{
    let [first, others @ ..] = phases else {
        return false;
    };
    (!(from == s) && holds_phase(wanted, first)) || taken_from(from + 1, s, wanted, others)
}
