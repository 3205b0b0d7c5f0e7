//! What a statement sees.
ghost use Rattle.std.specs.Prelude.{◌≡◌};
ghost use Rattle.std.specs.Option.{option_map};
ghost use Rattle.std.specs.FinMap.{get};
ghost use Rattle.sql_eval.specs.Views.{View, place, row_behind};

use crate::row::Row;
use pg_values::Value;

/// The rows that a statement sees, by their tables and keys.
///
/// `rows` is the map from table and key to row that it means.
pub trait TableView {
    ghost rows: { Self → View };

    /// The row at a key, if there is one.
    fn row(&self, table: u8, key: &Value) -> Option<&Row>
        ensures { option_map (λ r. r.now) result ≡ get (rows self.now) (place table key.now) };

    /// The first row of a table behind a key, or of all, in the rising order of the keys.
    fn after(&self, table: u8, key: Option<&Value>) -> Option<&Row>
        ensures { option_map (λ r. r.now) result
            ≡ row_behind (rows self.now) table (option_map (λ k. k.now) key.entry) };
}
