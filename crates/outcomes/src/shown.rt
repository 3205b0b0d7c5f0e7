//! Rows that chains show, and their keys.
ghost use Rattle.std.specs.Prelude.{◌≡◌, drop, map};
ghost use Rattle.std.specs.Option.{option_map};
ghost use Rattle.outcomes.specs.Chains.{all_chained, first_entry};
ghost use Rattle.outcomes.specs.Layered.{entry_in};

use crate::chain::{Chain, row_shown};
use pg_values::Value;
use sql_eval::Row;

/// A row that is shown, and its key.
#[derive(Clone, Copy)]
pub struct Shown<'a> {
    pub key: &'a Value,
    pub row: &'a Row,
}

/// The first row of a table that the first sets have left, so many of them, from that chain on,
/// where the chains before it are passed.
pub(crate) fn first_shown(
    chains: &[Chain],
    from: usize,
    table: u8,
    mark: usize,
) -> Option<Shown<'_>>
    ensures { option_map entry_in result
        ≡ first_entry mark table (drop from (all_chained chains.now)) }
{
    for number in from..chains.len() {
        let chain = &chains[number];
        if chain.table != table {
            return None;
        }
        match row_shown(chain.versions.as_slice(), mark) {
            Some(row) => {
                return Some(Shown {
                    key: &chain.key,
                    row,
                });
            }
            None => (),
        }
    }
    None
}
