//! What a log says of places.
ghost use Rattle.std.specs.Prelude.{◌≡◌, map};
ghost use Rattle.std.specs.List.{list_any};
ghost use Rattle.outcomes.specs.Log.{is_changed, has_changed};
ghost use Rattle.outcomes.specs.Spots.{place_of};

use crate::change::ChangeSet;
use crate::spot::{Spot, is_change_at};
use sql_eval::Change;

/// Whether one of the changes is at a spot.
fn is_changed(changes: &[Change], spot: &Spot) -> bool
    ensures { result ≡ is_changed changes.now (place_of spot.now) }
{
    for change in changes {
        if is_change_at(change, spot) {
            return true;
        }
    }
    false
}

/// Whether one of the sets has a change at a spot.
fn has_changed(log: &[ChangeSet], spot: &Spot) -> bool
    ensures { result ≡ has_changed log.now (place_of spot.now) }
{
    for set in log {
        if is_changed(set.changes.as_slice(), spot) {
            return true;
        }
    }
    false
}

/// Whether one of the sets has a change at one of the spots.
pub fn is_any_changed(log: &[ChangeSet], spots: &[Spot]) -> bool
    ensures { result ≡ list_any (has_changed log.now) (map place_of spots.now) }
{
    for spot in spots {
        if has_changed(log, spot) {
            return true;
        }
    }
    false
}
