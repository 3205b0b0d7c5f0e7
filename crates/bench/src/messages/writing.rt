//! Writing messages, and counting their bytes.
ghost use Rattle.std.specs.Prelude.{◌≡◌, ◌<◌, ◌*◌, OnOk, IfOk, length};
ghost use Rattle.pg_messages.specs.Server.{spelling, Fits};

use pg_messages::{ServerMessage, write_server};
use pool_base::{List, NoMemory};

/// Writes the message so many times, each time from the list's beginning on, and counts the bytes.
pub fn write_times(
    message: &ServerMessage,
    times: u32,
    onto: &mut List<u8>,
) -> Result<u64, NoMemory>
    requires { Fits message.now }
    ensures total { IfOk result (λ total. total ≡ times * length (spelling message.now)) }
    // What was written last.
    ensures last { OnOk result (0 < times → onto.new ≡ spelling message.now) }
{
    let mut total: u64 = 0;
    for done in 0..times {
        onto.truncate(0);
        write_server(message, onto)?;
        total += onto.len() as u64;
    }
    Ok(total)
}
