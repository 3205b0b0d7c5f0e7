//! Places of rows, and how they stand to one another.
ghost use Rattle.std.specs.Prelude.{◌≡◌, ◌==◌, map};
ghost use Rattle.std.specs.List.{list_any};
ghost use Rattle.backend_trait.specs.Effect.{is_among};
ghost use Rattle.backend_trait.specs.Keys.{rank_of, key_order, place, place_order, is_place};
ghost use Rattle.outcomes.specs.Spots.{place_of};

use pg_values::Value;
use sql_eval::Change;
use sql_values::standing;
use std::cmp::Ordering;

/// Where a row stands: its table, and its key.
#[derive(Debug, Drop)]
pub struct Spot {
    pub table: u8,
    pub key: Value,
}

/// The place of a value's kind among the kinds.
fn rank_of(value: &Value) -> u8
    ensures { result ≡ rank_of value.now }
{
    match value {
        Value::Null => 0,
        Value::Bool(_) => 1,
        Value::Int4(_) => 2,
        Value::Int8(_) => 3,
        Value::Text(_) => 4,
        Value::Moment(_) => 5,
    }
}

/// How two keys stand: by their kinds, and keys of one kind as their values do.
pub(crate) fn key_order(a: &Value, b: &Value) -> Ordering
    ensures { result ≡ key_order a.now b.now }
{
    rank_of(a).cmp(&rank_of(b)).then(standing(a, b))
}

/// How two places stand: by their tables, and then by their keys.
pub(crate) fn place_order(table: u8, key: &Value, other: u8, other_key: &Value) -> Ordering
    ensures { result ≡ place_order (place table key.now) (place other other_key.now) }
{
    table.cmp(&other).then(key_order(key, other_key))
}

/// Whether a spot is that place.
pub fn is_spot(spot: &Spot, table: u8, key: &Value) -> bool
    ensures { result ≡ is_place (place_of spot.now) (place table key.now) }
{
    place_order(spot.table, &spot.key, table, key).is_eq()
}

/// Whether one of these places is that spot.
pub fn has_spot(places: &[Spot], spot: &Spot) -> bool
    ensures { result ≡ is_among (map place_of places.now) (place_of spot.now) }
{
    for place in places {
        if is_spot(spot, place.table, &place.key) {
            return true;
        }
    }
    false
}

/// Whether one of these places is of the table.
pub fn has_spot_in(places: &[Spot], table: u8) -> bool
    ensures { result ≡ list_any (λ p. p.table == table) (map place_of places.now) }
{
    for place in places {
        if place.table == table {
            return true;
        }
    }
    false
}

/// Whether a change is at a spot.
pub(crate) fn is_change_at(change: &Change, spot: &Spot) -> bool
    ensures { result ≡ is_place (place change.now.table change.now.key) (place_of spot.now) }
{
    place_order(change.table, &change.key, spot.table, &spot.key).is_eq()
}
