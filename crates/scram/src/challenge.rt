//! The server's first message.
ghost use Rattle.std.specs.Prelude.{◌≢◌, ◌↔◌, ◌≡◌, ℕ, List as Sequence, MatchOption, IfOk, IsTrue};
ghost use Rattle.scram.specs.Words.{Lacks, Reads};
ghost use Rattle.scram.specs.Messages.{challenge_of, server_first, Extends, AreParts};

use crate::coding::{put_base64, read_base64};
use crate::count::{put_count, read_rounds};
use crate::pieces::{after, field};
use crate::words::is_nonce;
use pool_base::{List, NoMemory};
use std::alloc::Global;

/// The parts of a server's first message.
#[derive(Drop)]
pub(crate) struct Challenge {
    pub(crate) nonce: List<u8>,
    pub(crate) salt: List<u8>,
    pub(crate) rounds: u32,
}

/// The texts of the three values of a server's first message.
#[derive(Clone, Copy)]
struct Texts<'a> {
    nonce: &'a [u8],
    salt: &'a [u8],
    rounds: &'a [u8],
}

/// The server's first message.
///
/// Source: RFC 5802, "Formal Syntax", `server-first-message`.
pub(crate) fn challenge_text(
    alloc: Global,
    nonce: &[u8],
    salt: &[u8],
    rounds: u32,
) -> Result<List<u8>, NoMemory>
    ensures { IfOk result (λ text. text ≡ server_first nonce.now salt.now rounds) }
{
    let mut text = List::from_slice(alloc, b"r=")?;
    text.extend_from_slice(nonce)?;
    text.extend_from_slice(b",s=")?;
    put_base64(alloc, salt, &mut text)?;
    text.extend_from_slice(b",i=")?;
    put_count(alloc, rounds, &mut text)?;
    Ok(text)
}

/// The texts of the three values.
fn texts_of(message: &[u8]) -> Option<Texts<'_>>
    ensures { MatchOption result
        ((nonce salt rounds : Sequence ℕ) → Lacks 44 nonce → Lacks 44 salt
        → message.now ≢ challenge_of nonce salt rounds)
        (λ t. Lacks 44 t.nonce.now × Lacks 44 t.salt.now
        × (message.now ≡ challenge_of t.nonce.now t.salt.now t.rounds.now)) }
{
    let (nonce, behind) = field(b"r=", b',', message)?;
    let (salt, behind) = field(b"s=", b',', behind)?;
    let rounds = after(b"i=", behind)?;
    Some(Texts {
        nonce,
        salt,
        rounds,
    })
}

/// Whether a nonce is the client's own with something behind it.
fn extends(own: &[u8], nonce: &[u8]) -> bool
    ensures { IsTrue result ↔ Extends own.now nonce.now }
{
    match after(own, nonce) {
        Some(added) => !added.is_empty(),
        None => false,
    }
}

/// The parts of the answer to a message with the nonce `own`.
///
/// Source: RFC 5802, "Formal Syntax", `server-first-message`. House rules: no other attributes; the
/// server adds to the nonce; 1 to 100000 rounds.
pub(crate) fn read_challenge(
    alloc: Global,
    own: &[u8],
    message: &[u8],
) -> Result<Option<Challenge>, NoMemory>
    ensures { IfOk result
        (Reads (AreParts own.now message.now)) }
{
    let Some(texts) = texts_of(message) else {
        return Ok(None);
    };
    if !is_nonce(texts.nonce) {
        return Ok(None);
    }
    if !extends(own, texts.nonce) {
        return Ok(None);
    }
    let Some(rounds) = read_rounds(texts.rounds) else {
        return Ok(None);
    };
    let Some(salt) = read_base64(alloc, texts.salt)? else {
        return Ok(None);
    };
    let nonce = List::from_slice(alloc, texts.nonce)?;
    Ok(Some(Challenge {
        nonce,
        salt,
        rounds,
    }))
}
