//! The next number of each table's serial column.
ghost use Rattle.std.specs.Prelude.{◌≡◌, ◌≤◌, ℕ, length, option_map, slice_get};
ghost use Rattle.backend_trait.specs.Store.{first_number};
ghost use Rattle.outcomes.specs.Positive.{next_in, ArePositive, ArePositive-prop};

use crate::outcome::table_in;
use backend_trait::{Catalogue, Checked, next_behind};
use catalogue::TableDef;

/// The next number of each table's serial column, where it has one.
#[derive(Drop)]
pub struct NextNumbers {
    pub all: [Option<i64>; 256],
    ghost positive: { ArePositive all } by { ArePositive-prop all },
}

/// The first number of a table's serial column, where it has one.
fn first_number(table: Option<&TableDef>) -> Option<i64>
    ensures { result ≡ first_number (option_map (λ t. t.now) table.entry) }
{
    match table {
        Some(table) => match table.serial {
            Some(_) => Some(1),
            None => None,
        },
        None => None,
    }
}

/// The first numbers of all tables.
fn first_numbers(catalogue: &Catalogue) -> [Option<i64>; 256]
    requires { length catalogue.now ≤ 256 }
    ensures { (table : ℕ) → next_in result table ≡ first_number (slice_get catalogue.now table) }
{
    let mut all = [None; 256];
    for table in 0..256_usize {
        all[table] = first_number(catalogue.table(table as u8));
    }
    all
}

impl NextNumbers {
    ghost use Rattle.sql_eval.specs.Effects.{DrawsFew};
    ghost use Rattle.backend_trait.specs.Effect.{IsPositive};
    ghost use Rattle.backend_trait.specs.Rows.{with_at};
    ghost use Rattle.backend_trait.specs.Store.{prepared, next_for, drawn_by};
    ghost use Rattle.outcomes.specs.Next.{next_of};

    /// The first numbers of tables.
    pub fn new(catalogue: &Catalogue) -> NextNumbers
        requires { length catalogue.now ≤ 256 }
        ensures { next_of result ≡ (prepared catalogue.now).next }
    {
        let all = first_numbers(catalogue);
        NextNumbers { all }
    }

    /// The next number of that table.
    pub fn at(&self, table: u8) -> Option<i64>
        ensures next { result ≡ next_of self.now table }
        ensures positive { IsPositive result }
    {
        self.all[usize::from(table)]
    }

    /// The next number of a table, where there is one.
    pub fn next_for(&self, table: Option<u8>) -> Option<i64>
        ensures next { result ≡ next_for (next_of self.now) table }
        ensures positive { IsPositive result }
    {
        match table {
            Some(table) => self.at(table),
            None => None,
        }
    }

    /// A table's next number is that from now on.
    pub fn set(&mut self, table: u8, next: Option<i64>)
        requires { IsPositive next }
        ensures { next_of self.new ≡ with_at (next_of self.old) table next }
    {
        self.all[usize::from(table)] = next;
    }

    /// A statement draws its numbers.
    pub fn draw(&mut self, catalogue: &Catalogue, statement: &Checked)
        requires { DrawsFew statement.now.body }
        ensures { next_of self.new ≡ drawn_by catalogue.now statement.now (next_of self.old) }
    {
        match table_in(statement) {
            Some(table) => {
                let next = next_behind(catalogue, statement, self.at(table));
                self.set(table, next);
            }
            None => (),
        }
    }
}
