//! What a transaction sees: its own changes over the first sets of an index.
ghost use Rattle.std.specs.Prelude.{◌≡◌, false, None, Some, true, IfOk, IfSome, T, slice_get};
ghost use Rattle.std.specs.FinMap.{get, is_sorted};
ghost use Rattle.std.specs.List.{find};
ghost use Rattle.std.specs.Option.{option_map};
ghost use Rattle.pg_values.specs.declared.value.Value.{Value as Key};
ghost use Rattle.sql_eval.specs.Views.{entries_in, is_behind};
ghost use Rattle.backend_trait.specs.Keys.{place, place_order};
ghost use Rattle.outcomes.specs.Behind.{IsFirstRow, IsNext, is_after};
ghost use Rattle.outcomes.specs.Chains.{all_chained};
ghost use Rattle.outcomes.specs.Indexed.{rows_in_index};
ghost use Rattle.outcomes.specs.Layered.{AreMade, AreMade-prop, IsElsewhere, entry_in, seen_rows};
ghost use Rattle.outcomes.specs.Sights.{is_passed};
ghost use Rattle.outcomes.specs.Spread.{IsParted};

use crate::chain::{Chain, left_shown, row_shown};
use crate::index::{Index, first_of, number_of, put_all};
use crate::shown::{Shown, first_shown};
use crate::spot::key_order;
use pg_values::Value;
use pool_base::NoMemory;
use sql_eval::{Change, Row, TableView};
use std::alloc::Global;

/// The rows behind the first sets of an index, so many of them, and over them a transaction's own
/// changes.
#[derive(Drop)]
pub struct Layers<'a> {
    pub own: Vec<Chain>,
    pub changes: &'a [Change],
    pub index: &'a Index,
    pub mark: usize,
    ghost sorted: { T (is_sorted place_order (all_chained own.items)) },
    ghost made: { AreMade changes.now (all_chained own.items) } by { AreMade-prop changes.now _ },
}

impl<'a> Layers<'a> {
    /// Own changes over the first sets of an index, so many of them.
    pub fn new(
        alloc: Global,
        changes: &'a [Change],
        index: &'a Index,
        mark: usize,
    ) -> Result<Layers<'a>, NoMemory>
        ensures { IfOk result (λ layers. seen_rows layers.changes.now layers.index.now layers.mark
            ≡ seen_rows changes.now index.now mark) }
    {
        let mut own: Vec<Chain> = Vec::new(alloc);
        put_all(alloc, &mut own, 0, changes)?;
        Ok(Layers {
            own,
            changes,
            index,
            mark,
        })
    }

    /// The row at a place behind the sets.
    fn below_at(&self, table: u8, key: &Value) -> Option<&Row>
        ensures { option_map (λ r. r.now) result
            ≡ get (rows_in_index self.now.index.now self.now.mark) (place table key.now) }
    {
        let chains = self.index.chains.as_slice();
        match number_of(chains, table, key) {
            Ok(number) => row_shown(chains[number].versions.as_slice(), self.mark),
            Err(_) => None,
        }
    }

    /// The row at a place: what an own change has left there, or else what the sets have.
    fn seen_at(&self, table: u8, key: &Value) -> Option<&Row>
        ensures { option_map (λ r. r.now) result
            ≡ get (seen_rows self.now.changes.now self.now.index.now self.now.mark)
            (place table key.now) }
    {
        let own = self.own.as_slice();
        match number_of(own, table, key) {
            Ok(number) => match left_shown(own[number].versions.as_slice(), 1) {
                Some(row) => row.as_ref(),
                None => self.below_at(table, key),
            },
            Err(_) => self.below_at(table, key),
        }
    }

    /// The first row of a table behind a key, or of all, behind the sets.
    fn below(&self, table: u8, after: Option<&Value>) -> Option<Shown<'_>>
        ensures { option_map entry_in result
            ≡ find (is_behind (option_map (λ k. k.now) after.entry))
            (entries_in (rows_in_index self.now.index.now self.now.mark) table) }
    {
        let chains = self.index.chains.as_slice();
        first_shown(chains, first_of(chains, table, after), table, self.mark)
    }

    /// The first row of a table behind a key, or of all, where no own change comes behind it.
    fn next_below(&self, table: u8, after: Option<&Value>, number: usize) -> Option<&Row>
        requires parted { IsParted (is_passed table (option_map (λ k. k.now) after))
            (all_chained self.now.own.items) number }
        requires elsewhere { IsElsewhere table (slice_get self.now.own.items number) }
        ensures { IsNext (seen_rows self.now.changes.now self.now.index.now self.now.mark) table
            (option_map (λ k. k.now) after.entry) (option_map (λ r. r.now) result) }
    {
        match self.below(table, after) {
            Some(shown) => Some(shown.row),
            None => None,
        }
    }

    /// The first row of a table behind a key, or of all, where it does not come behind the first
    /// own change there.
    fn next_with(
        &self,
        table: u8,
        after: Option<&Value>,
        number: usize,
        chain: &Chain,
    ) -> Option<&Row>
        requires parted { IsParted (is_passed table (option_map (λ k. k.now) after))
            (all_chained self.now.own.items) number }
        requires there { slice_get self.now.own.items number ≡ Some chain.now }
        requires table { chain.now.table ≡ table }
        ensures some { IfSome result (λ row. IsFirstRow (seen_rows self.now.changes.now
            self.now.index.now self.now.mark) table (option_map (λ k. k.now) after.entry)
            row.now) }
        ensures none { result ≡ None → (k : Key) → is_after (option_map (λ k. k.now) after.entry) k
            ≡ true → is_after (Some chain.now.key) k ≡ false → get (seen_rows self.now.changes.now
            self.now.index.now self.now.mark) (place table k) ≡ None }
    {
        match self.below(table, after) {
            None => self.seen_at(table, &chain.key),
            Some(shown) => {
                if key_order(shown.key, &chain.key).is_lt() {
                    return Some(shown.row);
                }
                self.seen_at(table, &chain.key)
            }
        }
    }
}

impl TableView for Layers<'_> {
    ghost rows = { λ layers. seen_rows layers.changes.now layers.index.now layers.mark };

    fn row(&self, table: u8, key: &Value) -> Option<&Row> {
        self.seen_at(table, key)
    }

    fn after(&self, table: u8, key: Option<&Value>) -> Option<&Row> {
        let own = self.own.as_slice();
        let mut after = key;
        for number in first_of(own, table, key)..own.len() {
            let chain = &own[number];
            if chain.table != table {
                return self.next_below(table, after, number);
            }
            match self.next_with(table, after, number, chain) {
                Some(row) => return Some(row),
                None => after = Some(&chain.key),
            }
        }
        self.next_below(table, after, own.len())
    }
}
