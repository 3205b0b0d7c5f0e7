//! The server's last message.
ghost use Rattle.std.specs.Prelude.{◌≡◌, IfOk};
ghost use Rattle.scram.specs.Words.{Reads};
ghost use Rattle.scram.specs.Messages.{server_final, IsServerFinal};

use crate::coding::{put_base64, read_digest};
use crate::pieces::after;
use pool_base::{List, NoMemory};
use std::alloc::Global;

/// The server's last message.
///
/// Source: RFC 5802, "Formal Syntax", `server-final-message`.
pub(crate) fn verdict_text(alloc: Global, signature: &[u8; 32]) -> Result<List<u8>, NoMemory>
    ensures { IfOk result (λ text. text ≡ server_final signature.now) }
{
    let mut text = List::from_slice(alloc, b"v=")?;
    put_base64(alloc, signature.as_slice(), &mut text)?;
    Ok(text)
}

/// The signature of a server's last message. House rule: an error is none.
pub(crate) fn read_verdict(alloc: Global, message: &[u8]) -> Result<Option<[u8; 32]>, NoMemory>
    ensures { IfOk result (Reads (λ signature. IsServerFinal message.now signature)) }
{
    match after(b"v=", message) {
        Some(code) => read_digest(alloc, code),
        None => Ok(None),
    }
}
