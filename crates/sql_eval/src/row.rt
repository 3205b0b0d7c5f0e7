//! Rows.
ghost use Rattle.std.specs.Prelude.{◌≡◌};

use pg_values::Value;
use pool_base::List;
use std::alloc::AllocError;

/// A row: one value for each column.
#[derive(PartialEq, Eq, Drop)]
pub struct Row {
    pub cells: List<Value>,
}

impl Clone for Row {
    ghost is_clone = { λ row copy. copy ≡ row };

    fn clone(&self) -> Result<Row, AllocError> {
        Ok(Row {
            cells: self.cells.clone()?,
        })
    }
}
