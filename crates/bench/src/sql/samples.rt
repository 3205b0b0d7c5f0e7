//! The texts that are measured.
ghost use Rattle.std.specs.Prelude.{◌≡◌, ◌<◌, ◌≤◌, ◌+◌, ◌*◌, length, string_bytes, IfOk};

use pool_base::NoMemory;
use std::alloc::Global;

/// A SELECT of one row.
pub const POINT: &str = "SELECT v, w FROM accounts WHERE id = 1000001";

/// An INSERT of three rows.
pub const THREE: &str = "INSERT INTO accounts (id, v) VALUES (1, 25000), (2, NULL), (3, -4)";

/// An INSERT of so many rows of six tokens.
pub fn of_rows(alloc: Global, rows: u32) -> Result<String, NoMemory>
    ensures { IfOk result (λ text. length (string_bytes text) ≡ 35 + 8 * rows) }
{
    let mut text = String::new(alloc);
    text.push_str("INSERT INTO t (id, v) VALUES (1, 2)")?;
    for row in 0..rows {
        text.push_str(", (1, 2)")?;
    }
    Ok(text)
}
