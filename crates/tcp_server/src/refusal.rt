//! The error by which a client is told that it has no session.

use pool_base::{Code, NoMemory};
use std::alloc::Global;
use wire_reply::{REPORT_ROOM, Saying, Severity, put_report};

/// All seats are taken.
pub(crate) const TOO_MANY_CONNECTIONS: Code = Code { bytes: *b"53300" };

/// The bytes of the error.
pub(crate) fn refusal(alloc: Global, code: Code, saying: Saying) -> Result<Vec<u8>, NoMemory> {
    let mut bytes = Vec::new(alloc);
    bytes.reserve(REPORT_ROOM)?;
    put_report(&mut bytes, Severity::Fatal, code, saying, &[]);
    Ok(bytes)
}
