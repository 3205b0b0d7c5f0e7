//! Reading a text, and counting its statements.
ghost use Rattle.std.specs.Prelude.{◌<◌, ◌^◌, length};

use sql_profile::{SqlFault, read_statements};
use std::alloc::Global;

/// Reads the text so many times, and counts the statements of all.
pub fn read_times(alloc: Global, text: &str, times: u32) -> Result<u64, SqlFault>
    requires { length text.now < 2 ^ 32 }
{
    let mut total: u64 = 0;
    for done in 0..times {
        let statements = read_statements(alloc, text)?;
        total = total.saturating_add(statements.len() as u64);
    }
    Ok(total)
}
