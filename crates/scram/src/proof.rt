//! The client's last message.
ghost use Rattle.std.specs.Prelude.{◌≡◌, ◌++◌, codes, IfOk};
ghost use Rattle.scram.specs.Words.{IsDigest, Reads, in_base64};
ghost use Rattle.scram.specs.Messages.{without_proof, said_of, auth_message};

use crate::binding::Binding;
use crate::coding::{put_base64, read_digest};
use crate::pieces::after;
use pool_base::{List, NoMemory};
use std::alloc::Global;

/// The client's last message without its proof.
pub(crate) fn unproved_text(
    alloc: Global,
    binding: Binding,
    nonce: &[u8],
) -> Result<List<u8>, NoMemory>
    ensures { IfOk result (λ text. text ≡ without_proof binding nonce.now) }
{
    let mut text = List::from_slice(alloc, b"c=")?;
    text.extend_from_slice(binding.code())?;
    text.extend_from_slice(b",r=")?;
    text.extend_from_slice(nonce)?;
    Ok(text)
}

/// Two texts with a comma between them.
pub(crate) fn joined(alloc: Global, front: &[u8], back: &[u8]) -> Result<List<u8>, NoMemory>
    ensures { IfOk result (λ text. text ≡ front.now ++ codes "," ++ back.now) }
{
    let mut text = List::from_slice(alloc, front)?;
    text.extend_from_slice(b",")?;
    text.extend_from_slice(back)?;
    Ok(text)
}

/// A last message: the text before the proof, and the proof.
///
/// Source: RFC 5802, "Formal Syntax", `client-final-message`.
pub(crate) fn proof_text(
    alloc: Global,
    unproved: &[u8],
    proof: &[u8; 32],
) -> Result<List<u8>, NoMemory>
    ensures { IfOk result (λ text. text ≡ unproved.now ++ codes ",p=" ++ in_base64 proof.now) }
{
    let mut text = List::from_slice(alloc, unproved)?;
    text.extend_from_slice(b",p=")?;
    put_base64(alloc, proof.as_slice(), &mut text)?;
    Ok(text)
}

/// The proof of a last message that has this text before it.
pub(crate) fn read_proof(
    alloc: Global,
    unproved: &[u8],
    message: &[u8],
) -> Result<Option<[u8; 32]>, NoMemory>
    ensures { IfOk result (Reads (λ proof. IsDigest proof
        × (message.now ≡ unproved.now ++ codes ",p=" ++ in_base64 proof))) }
{
    let Some(behind) = after(unproved, message) else {
        return Ok(None);
    };
    let Some(code) = after(b",p=", behind) else {
        return Ok(None);
    };
    read_digest(alloc, code)
}
