//! Bytes in base64.
ghost use Rattle.std.specs.Prelude.{◌≡◌, ◌++◌, length, IfOk, OnOk};
ghost use Rattle.base64.specs.GeneralPurpose.{IsBytes};
ghost use Rattle.scram.specs.Words.{IsDigest, Reads, in_base64};

use base64::DecodeAllocError;
use base64::engine::general_purpose::STANDARD;
use pool_base::{List, NoMemory};
use std::alloc::Global;

/// Bytes in base64, put behind the others.
#[tactic(auto, unfolding(crate::specs::Words::in_base64))]
pub(crate) fn put_base64(alloc: Global, bytes: &[u8], onto: &mut List<u8>) -> Result<(), NoMemory>
    ensures { OnOk result (onto.new ≡ onto.old ++ in_base64 bytes.now) }
{
    let text = STANDARD.encode(alloc, bytes)?;
    onto.extend_from_slice(text.as_bytes())
}

/// A nonce of such bytes: they are to be random, and new each time.
pub fn nonce_of(alloc: Global, bytes: &[u8]) -> Result<List<u8>, NoMemory>
    ensures { IfOk result (λ nonce. nonce ≡ in_base64 bytes.now) }
{
    let mut nonce = List::new(alloc);
    put_base64(alloc, bytes, &mut nonce)?;
    Ok(nonce)
}

/// The bytes of a text in base64. Only the form that is written is read.
#[tactic(auto, unfolding(crate::specs::Words::in_base64))]
pub(crate) fn read_base64(alloc: Global, text: &[u8]) -> Result<Option<List<u8>>, NoMemory>
    ensures { IfOk result (Reads (λ bytes. IsBytes bytes × (text.now ≡ in_base64 bytes))) }
{
    match STANDARD.decode(alloc, text) {
        Ok(bytes) => Ok(Some(List::from_vec(bytes))),
        Err(DecodeAllocError::DecodeError(_)) => Ok(None),
        Err(DecodeAllocError::OutOfMemory) => Err(NoMemory),
    }
}

/// The 32 bytes of a text in base64.
pub(crate) fn read_digest(alloc: Global, text: &[u8]) -> Result<Option<[u8; 32]>, NoMemory>
    ensures { IfOk result (Reads (λ bytes. IsDigest bytes × (text.now ≡ in_base64 bytes))) }
{
    match read_base64(alloc, text)? {
        Some(bytes) => Ok(digest_of(bytes.as_slice())),
        None => Ok(None),
    }
}

/// These bytes, if they are 32.
fn digest_of(bytes: &[u8]) -> Option<[u8; 32]>
    ensures { Reads (λ digest. (digest ≡ bytes.now) × (length digest ≡ 32)) result }
{
    <[u8; 32]>::try_from(bytes).ok()
}
