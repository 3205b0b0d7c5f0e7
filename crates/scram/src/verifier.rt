//! What a server keeps of a password.
ghost use Rattle.std.specs.Prelude.{◌≡◌, ◌≢◌, ◌≤◌, ◌↔◌, ℕ, true, List as Sequence, MatchOption, IfOk, decimal};
ghost use Rattle.scram.specs.Words.{IsRounds, IsPassword, Lacks, Reads, in_base64};
ghost use Rattle.scram.specs.Verifiers.{verifier_text, IsTextOf, IsVerifierOf};
ghost use Rattle.scram.specs.Tests.{is_verifier, HasVerifier};
ghost use Rattle.scram.specs.declared.verifier.Verifier.{Verifier};

use crate::coding::{put_base64, read_base64, read_digest};
use crate::count::{put_count, read_rounds};
use crate::fault::ScramFault;
use crate::keys::keys_of;
use crate::pieces::{after, field};
use pool_base::{List, NoMemory};
use std::alloc::Global;

/// What a server keeps of a password.
///
/// Units: 1 to 100000 rounds.
#[derive(Drop)]
pub struct Verifier {
    pub rounds: u32,
    pub salt: List<u8>,
    pub stored: [u8; 32],
    pub server: [u8; 32],
}

/// The texts of the four values of a verifier.
#[derive(Clone, Copy)]
struct Texts<'a> {
    rounds: &'a [u8],
    salt: &'a [u8],
    stored: &'a [u8],
    server: &'a [u8],
}

fn texts_of(text: &[u8]) -> Option<Texts<'_>>
    ensures { MatchOption result
        ((rounds salt stored server : Sequence ℕ)
        → Lacks 58 rounds → Lacks 36 salt → Lacks 58 stored
        → text.now ≢ verifier_text rounds salt stored server)
        (λ t. Lacks 58 t.rounds.now × Lacks 36 t.salt.now × Lacks 58 t.stored.now
        × (text.now ≡ verifier_text t.rounds.now t.salt.now t.stored.now t.server.now)) }
{
    let (rounds, behind) = field(b"SCRAM-SHA-256$", b':', text)?;
    let (salt, behind) = field(b"", b'$', behind)?;
    let (stored, server) = field(b"", b':', behind)?;
    Some(Texts {
        rounds,
        salt,
        stored,
        server,
    })
}

/// The verifier of a text, if it is one.
fn verifier_of(alloc: Global, text: &[u8]) -> Result<Option<Verifier>, NoMemory>
    ensures { IfOk result (Reads (IsTextOf text.now)) }
{
    let Some(texts) = texts_of(text) else {
        return Ok(None);
    };
    let Some(rounds) = read_rounds(texts.rounds) else {
        return Ok(None);
    };
    let Some(stored) = read_digest(alloc, texts.stored)? else {
        return Ok(None);
    };
    let Some(server) = read_digest(alloc, texts.server)? else {
        return Ok(None);
    };
    let Some(salt) = read_base64(alloc, texts.salt)? else {
        return Ok(None);
    };
    Ok(Some(Verifier {
        rounds,
        salt,
        stored,
        server,
    }))
}

/// The verifier of a text.
///
/// Shape: `SCRAM-SHA-256$rounds:salt$stored:server`, the last three in base64.
/// Source: PostgreSQL, "System Catalogs", "pg_authid".
pub fn read_verifier(alloc: Global, text: &[u8]) -> Result<Verifier, ScramFault>
    ensures read { IfOk result (IsTextOf text.now) }

    // Which fault it is.
    ensures malformed { result ≡ Err ScramFault.Malformed
        → (verifier : Verifier) → IsTextOf text.now verifier → ⊥ }
    ensures no_proof { result ≢ Err ScramFault.WrongProof }
{
    match verifier_of(alloc, text)? {
        Some(verifier) => Ok(verifier),
        None => Err(ScramFault::Malformed),
    }
}

/// The text of a verifier.
///
/// Shape: `SCRAM-SHA-256$rounds:salt$stored:server`, the last three in base64.
/// Source: PostgreSQL, "System Catalogs", "pg_authid".
pub fn write_verifier(alloc: Global, verifier: &Verifier) -> Result<List<u8>, NoMemory>
    ensures { IfOk result (λ text. text ≡ verifier_text (decimal verifier.now.rounds)
        (in_base64 verifier.now.salt) (in_base64 verifier.now.stored)
        (in_base64 verifier.now.server)) }
{
    let mut text = List::from_slice(alloc, b"SCRAM-SHA-256$")?;
    put_count(alloc, verifier.rounds, &mut text)?;
    text.extend_from_slice(b":")?;
    put_base64(alloc, verifier.salt.as_slice(), &mut text)?;
    text.extend_from_slice(b"$")?;
    put_base64(alloc, verifier.stored.as_slice(), &mut text)?;
    text.extend_from_slice(b":")?;
    put_base64(alloc, verifier.server.as_slice(), &mut text)?;
    Ok(text)
}

/// Whether a text is that of a verifier.
#[tactic(auto, using(crate::proofs::Telling::verifier_exactly, crate::proofs::Telling::verifier_read))]
pub fn is_verifier(alloc: Global, text: &[u8]) -> Result<bool, NoMemory>
    ensures is { IfOk result (λ is. is ≡ is_verifier text.now) }
    // The test is true of the texts that a verifier has, and of no others.
    ensures exact { (is_verifier text.now ≡ true) ↔ HasVerifier text.now }
{
    let read = verifier_of(alloc, text)?;
    Ok(read.is_some())
}

/// The verifier of a password.
pub fn make_verifier(
    alloc: Global,
    password: &[u8],
    salt: &[u8],
    rounds: u32,
) -> Result<Verifier, NoMemory>
    requires password { IsPassword password.now }
    requires rounds { IsRounds rounds }
    ensures { IfOk result (λ made. IsVerifierOf made password.now salt.now rounds) }
{
    let keys = keys_of(password, salt, rounds);
    let stored = keys.stored;
    let server = keys.server;
    let salt = List::from_slice(alloc, salt)?;
    Ok(Verifier {
        rounds,
        salt,
        stored,
        server,
    })
}
