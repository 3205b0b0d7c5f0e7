//! Writing the whole of some bytes.
ghost use Rattle.std.specs.Prelude.{◌≡◌, ◌≤◌, OnOk, OnErr};
ghost use Rattle.pool_base.specs.Outside.{Appends, AppendsFront, Rose};

use crate::outside::{Put, Sink};

/// A sink has failed.
#[derive(Clone, Copy, Debug, PartialEq, Eq, Drop)]
pub struct SinkFailed;

/// Writes all of the bytes. After an error the sink has taken a front of them.
pub fn write_all<O: Sink>(out: &mut O, bytes: &[u8]) -> Result<(), SinkFailed>
    ensures all { OnOk result (Appends (O.taken out.old) (O.taken out.new) bytes.now) }
    ensures later { O.fault_count out.old ≤ O.fault_count out.new }

    // The only error, and what it leaves.
    ensures cause { OnErr result (Rose (O.fault_count out.old) (O.fault_count out.new)) }
    ensures front { OnErr result (AppendsFront (O.taken out.old) (O.taken out.new) bytes.now) }
{
    let mut rest = bytes;
    while !rest.is_empty() {
        match out.write(rest) {
            Put::Taken(count) => rest = rest.split_at(count).1,
            Put::Failed => return Err(SinkFailed),
        }
    }
    Ok(())
}
