//! What sets have left at one place.
ghost use Rattle.std.specs.Prelude.{◌≡◌};
ghost use Rattle.std.specs.Option.{option_map};
ghost use Rattle.outcomes.specs.Chains.{row_left, shown};

use pg_values::Value;
use sql_eval::Row;

/// What a set has left at a place: a row, or none any more.
#[derive(Drop)]
pub struct Version {
    /// The number of the set in the log.
    pub set: usize,
    pub row: Option<Row>,
}

/// What sets have left at one place, oldest first.
#[derive(Drop)]
pub struct Chain {
    pub table: u8,
    pub key: Value,
    pub versions: Vec<Version>,
}

/// What the last of the first sets has left, so many of them. The newest version is looked at
/// first.
pub(crate) fn left_shown(versions: &[Version], mark: usize) -> Option<&Option<Row>>
    ensures { option_map (λ r. r.now) result ≡ shown mark versions.now }
{
    for past in 0..versions.len() {
        let version = &versions[versions.len() - 1 - past];
        if version.set < mark {
            return Some(&version.row);
        }
    }
    None
}

/// The row that the first sets have left, so many of them.
pub(crate) fn row_shown(versions: &[Version], mark: usize) -> Option<&Row>
    ensures { option_map (λ r. r.now) result ≡ row_left (shown mark versions.now) }
{
    match left_shown(versions, mark) {
        Some(row) => row.as_ref(),
        None => None,
    }
}
