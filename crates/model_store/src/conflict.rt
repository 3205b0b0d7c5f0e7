//! Whether another session holds what a request wants.
ghost use Rattle.std.specs.Prelude.{◌≢◌, ◌<◌, ◌↔◌, IsTrue, length, slice_get};
ghost use Rattle.backend_trait.specs.Effect.{Conflicts};
ghost use Rattle.model_store.specs.Phases.{held_of, held_by_phase};
ghost use Rattle.model_store.specs.Conflicts.{wants_of, IsHeldElsewhere, held_in};

use crate::phase::{Phase, Work};
use crate::seat::Seat;
use outcomes::{Spot, has_spot, has_spot_in};

/// What a request wants.
#[derive(Clone, Copy)]
pub enum Wanted<'a> {
    Places(&'a [Spot]),
    Table(u8),
}

/// Whether the transaction holds what conflicts with one of the places.
fn holds_places(work: &Work, places: &[Spot]) -> bool
    ensures { IsTrue result ↔ Conflicts (wants_of (Wanted.Places places.entry)) (held_of work.now) }
{
    for spot in places {
        if work.locks[usize::from(spot.table)] || has_spot(work.held.as_slice(), spot) {
            return true;
        }
    }
    false
}

/// Whether the transaction holds what conflicts with the lock of a table.
fn holds_table(work: &Work, table: u8) -> bool
    ensures { IsTrue result ↔ Conflicts (wants_of (Wanted.Table table)) (held_of work.now) }
{
    work.locks[usize::from(table)] || has_spot_in(work.held.as_slice(), table)
}

/// Whether a session's transaction holds what conflicts.
fn holds(phase: &Phase, wanted: Wanted<'_>) -> bool
    ensures { IsTrue result ↔ Conflicts (wants_of wanted.entry) (held_by_phase phase.now) }
{
    match phase {
        Phase::Open(work) => match wanted {
            Wanted::Places(places) => holds_places(work, places),
            Wanted::Table(table) => holds_table(work, table),
        },
        Phase::Absent | Phase::Dead => false,
    }
}

/// Whether that seat is another one and holds what conflicts.
pub(crate) fn holds_other(seats: &[Seat], at: usize, other: usize, wanted: Wanted<'_>) -> bool
    requires { other < length seats.now }
    ensures { IsTrue result ↔ ((other ≢ at)
        × Conflicts (wants_of wanted.entry) (held_in (slice_get seats.now other))) }
{
    if other == at {
        return false;
    }
    holds(&seats[other].phase, wanted)
}

/// Whether another session holds what conflicts.
pub(crate) fn is_taken(seats: &[Seat], at: usize, wanted: Wanted<'_>) -> bool
    ensures { IsTrue result ↔ IsHeldElsewhere seats.now at (wants_of wanted.entry) }
{
    for other in 0..seats.len() {
        if holds_other(seats, at, other, wanted) {
            return true;
        }
    }
    false
}
