//! The rows that a transaction sees, in the order of their places.
ghost use Rattle.std.specs.Prelude.{◌≡◌, ◌<◌, ◌≤◌, not, nat_lt, IfErr, IfOk, IsTrue, OnOk, length, map, slice_get, T};
ghost use Rattle.std.specs.FinMap.{is_sorted};
ghost use Rattle.std.specs.Option.{option_map};
ghost use Rattle.std.specs.Ordering.{is_gt};
ghost use Rattle.backend_trait.specs.Keys.{place, place_order};
ghost use Rattle.backend_trait.specs.Rows.{laid_over, changed_at};
ghost use Rattle.backend_trait.specs.Effect.{changes_of, place_changed};
ghost use Rattle.outcomes.specs.Log.{rows_of};
ghost use Rattle.outcomes.specs.Spread.{IsParted, StandsAt, StandsBetween};
ghost use Rattle.outcomes.specs.Sights.{all_laid, all_stood, is_before, is_up_to, row_in, rows_at, stood};

use crate::change::ChangeSet;
use crate::gathered::in_order;
use crate::spot::place_order;
use pg_values::Value;
use pool_base::NoMemory;
use sql_eval::{Change, Row, TableView};
use std::alloc::Global;
use std::cmp::Ordering;

/// A row and where it stands.
#[derive(Clone, Copy)]
pub struct Seen<'a> {
    pub table: u8,
    pub key: &'a Value,
    pub row: &'a Row,
}

/// The rows that a transaction sees, in the order of their places.
#[derive(Drop)]
pub struct Sight<'a> {
    pub rows: Vec<Seen<'a>>,
    ghost sorted: { T (is_sorted place_order (all_stood rows.items)) },
}

/// How a row stands to a place.
fn order_at(seen: &Seen<'_>, table: u8, key: &Value) -> Ordering
    ensures { result ≡ place_order (stood seen.now).0 (place table key.now) }
{
    place_order(seen.table, seen.key, table, key)
}

/// Whether all rows stand before a place.
fn are_before(rows: &[Seen<'_>], table: u8, key: &Value) -> bool
    requires { T (is_sorted place_order (all_stood rows.now)) }
    ensures { IsTrue result → StandsBetween place_order (place table key.now)
        (all_stood rows.now) (length rows.now) }
{
    match rows.last() {
        None => true,
        Some(last) => order_at(last, table, key).is_lt(),
    }
}

/// The number of the row at a place, or else of the row before which it would stand. Where rows
/// come in the order of their places, each stands behind all before it: that is looked at first.
fn number_of(rows: &[Seen<'_>], table: u8, key: &Value) -> Result<usize, usize>
    requires { T (is_sorted place_order (all_stood rows.now)) }
    ensures at { IfOk result (λ n. (n < length rows.now)
        × StandsAt place_order (place table key.now) (all_stood rows.now) n) }
    ensures between { IfErr result (λ n. (n ≤ length rows.now)
        × StandsBetween place_order (place table key.now) (all_stood rows.now) n) }
{
    if are_before(rows, table, key) {
        return Err(rows.len());
    }
    rows.binary_search_by(
        |seen: &Seen<'_>| -> Ordering
            ensures { result ≡ place_order (stood seen.now).0 (place table key.entry.now) }
        { order_at(seen, table, key) },
    )
}

/// A change of a row that is there: another row, or none any more.
fn replace<'a>(rows: &mut Vec<Seen<'a>>, number: usize, change: &'a Change)
    requires sorted { T (is_sorted place_order (all_stood rows.old.items)) }
    requires below { number < length rows.old.items }
    requires at { StandsAt place_order (place_changed change.now) (all_stood rows.old.items)
        number }
    ensures sorted { T (is_sorted place_order (all_stood rows.new.items)) }
    ensures laid { rows_at rows.new.items
        ≡ changed_at (rows_at rows.old.items) (place_changed change.now) change.now.row }
{
    match &change.row {
        Some(row) => {
            rows[number] = Seen {
                table: change.table,
                key: &change.key,
                row,
            };
        }
        None => {
            let _gone = rows.remove(number);
        }
    }
}

/// A change where no row is: a row, or none still.
fn put_in<'a>(rows: &mut Vec<Seen<'a>>, number: usize, change: &'a Change) -> Result<(), NoMemory>
    requires sorted { T (is_sorted place_order (all_stood rows.old.items)) }
    requires bound { number ≤ length rows.old.items }
    requires between { StandsBetween place_order (place_changed change.now)
        (all_stood rows.old.items) number }
    ensures sorted { OnOk result (T (is_sorted place_order (all_stood rows.new.items))) }
    ensures laid { OnOk result (rows_at rows.new.items
        ≡ changed_at (rows_at rows.old.items) (place_changed change.now) change.now.row) }
{
    match &change.row {
        Some(row) => {
            rows.insert(
                number,
                Seen {
                    table: change.table,
                    key: &change.key,
                    row,
                },
            )?;
            Ok(())
        }
        None => Ok(()),
    }
}

/// Lays a change over rows.
fn lay<'a>(rows: &mut Vec<Seen<'a>>, change: &'a Change) -> Result<(), NoMemory>
    requires { T (is_sorted place_order (all_stood rows.old.items)) }
    ensures sorted { OnOk result (T (is_sorted place_order (all_stood rows.new.items))) }
    ensures laid { OnOk result (rows_at rows.new.items
        ≡ changed_at (rows_at rows.old.items) (place_changed change.now) change.now.row) }
{
    match number_of(rows.as_slice(), change.table, &change.key) {
        Ok(number) => {
            replace(rows, number, change);
            Ok(())
        }
        Err(number) => put_in(rows, number, change),
    }
}

/// Lays changes over rows, one after another.
fn lay_all<'a>(rows: &mut Vec<Seen<'a>>, changes: &[&'a Change]) -> Result<(), NoMemory>
    requires { T (is_sorted place_order (all_stood rows.old.items)) }
    ensures sorted { OnOk result (T (is_sorted place_order (all_stood rows.new.items))) }
    ensures laid { OnOk result (rows_at rows.new.items
        ≡ all_laid (rows_at rows.old.items) (map (λ c. c.now) changes.now)) }
{
    for change in changes {
        lay(rows, change)?;
    }
    Ok(())
}

/// The number of the first row that is of a table or of a later one.
fn first_in(rows: &[Seen<'_>], table: u8) -> usize
    requires { T (is_sorted place_order (all_stood rows.now)) }
    ensures { IsParted (is_before table) (all_stood rows.now) result }
{
    rows.partition_point(
        |seen: &Seen<'_>| -> bool
            ensures { result ≡ is_before table (stood seen.now) }
        { seen.table < table },
    )
}

/// The number of the first row that stands behind a place.
fn first_behind(rows: &[Seen<'_>], table: u8, key: &Value) -> usize
    requires { T (is_sorted place_order (all_stood rows.now)) }
    ensures { IsParted (is_up_to (place table key.now)) (all_stood rows.now) result }
{
    rows.partition_point(
        |seen: &Seen<'_>| -> bool
            ensures { result ≡ is_up_to (place table key.entry.now) (stood seen.now) }
        { !order_at(seen, table, key).is_gt() },
    )
}

impl<'a> Sight<'a> {
    /// What is seen behind the sets of a log and changes that follow them. All changes are put in
    /// the order of their places, so that each is of the last row or stands behind it.
    pub fn new(
        alloc: Global,
        log: &'a [ChangeSet],
        own: &'a [Change],
    ) -> Result<Sight<'a>, NoMemory>
        ensures { IfOk result
            (λ sight. rows_at sight.rows.items ≡ laid_over (changes_of own.now) (rows_of log.now)) }
    {
        let changes = in_order(alloc, log, own)?;
        let mut rows: Vec<Seen<'a>> = Vec::new(alloc);
        lay_all(&mut rows, changes.as_slice())?;
        Ok(Sight { rows })
    }

    /// The row of that number, if it is of the table.
    fn row_in(&self, number: usize, table: u8) -> Option<&Row>
        ensures { option_map (λ r. r.now) result
            ≡ row_in table (slice_get (all_stood self.now.rows.items) number) }
    {
        match self.rows.get(number) {
            Some(seen) if seen.table == table => Some(seen.row),
            _ => None,
        }
    }
}

impl TableView for Sight<'_> {
    ghost rows = { λ sight. rows_at sight.rows.items };

    fn row(&self, table: u8, key: &Value) -> Option<&Row> {
        match number_of(self.rows.as_slice(), table, key) {
            Ok(number) => Some(self.rows[number].row),
            Err(_) => None,
        }
    }

    fn after(&self, table: u8, key: Option<&Value>) -> Option<&Row> {
        match key {
            None => self.row_in(first_in(self.rows.as_slice(), table), table),
            Some(key) => self.row_in(first_behind(self.rows.as_slice(), table, key), table),
        }
    }
}
