//! Reading a file whole.
ghost use Rattle.std.specs.Prelude.{◌≡◌, ◌≤◌, length, IfOk, OnErr};
ghost use Rattle.pool_base.specs.Outside.{IsTold, IsLonger, Rose};
ghost use Rattle.pool_base.specs.Reading.{IfFailed, IfTooLong};

use crate::list::List;
use crate::no_memory::NoMemory;
use crate::outside::{Files, Got};
use std::alloc::Global;

/// How many bytes are asked for at once.
const PIECE: usize = 4096;

/// Why a file was not read.
#[derive(Clone, Copy, Debug, PartialEq, Eq, Drop)]
pub enum ReadFault {
    /// It has more bytes than the limit.
    TooLong,
    /// The files have failed.
    Failed,
    NoMemory,
}

impl From<NoMemory> for ReadFault {
    ghost use Rattle.pool_base.specs.declared.read.ReadFault.TheVariants as fault;

    ghost from_gives = { λ _ r. r ≡ fault.NoMemory };

    fn from(_: NoMemory) -> ReadFault {
        ReadFault::NoMemory
    }
}

/// Reads a whole file of at most `limit` bytes.
///
/// Units: `limit` counts bytes.
pub fn read_whole<F: Files>(
    alloc: Global,
    files: &mut F,
    name: &str,
    limit: usize,
) -> Result<List<u8>, ReadFault>
    ensures whole { IfOk result (λ bytes. IsTold (F.contents files.old name.now) bytes) }
    ensures short { IfOk result (λ bytes. length bytes ≤ limit) }
    ensures kept { F.contents files.new ≡ F.contents files.old }
    ensures later { F.fault_count files.old ≤ F.fault_count files.new }

    // Which fault it is.
    ensures too_long { IfTooLong result (IsLonger (F.contents files.old name.now) limit) }
    ensures failed { IfFailed result (Rose (F.fault_count files.old) (F.fault_count files.new)) }
{
    let mut bytes = List::new(alloc);
    let mut piece = [0u8; PIECE];
    loop {
        match files.read(name, bytes.len() as u64, &mut piece) {
            Got::Bytes(count) => {
                if count > limit - bytes.len() {
                    return Err(ReadFault::TooLong);
                }
                bytes.extend_from_slice(&piece[..count])?;
            }
            Got::End => return Ok(bytes),
            Got::Failed => return Err(ReadFault::Failed),
        }
    }
}
