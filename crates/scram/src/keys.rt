//! The keys of a password.
ghost use Rattle.std.specs.Prelude.{◌≡◌, ◌↔◌, ◌≤◌, IsTrue};
ghost use Rattle.scram.specs.Keys.{salted_password, client_proof, IsKeysOf, Proves};

use crate::mac::{hmac, xor_bytes};
use crate::salting::salted;
use sha2::{Digest, Sha256};

/// What a client shows that it knows, what a server keeps of it, and what a server shows that it
/// knows.
#[derive(Drop)]
pub(crate) struct Keys {
    pub(crate) client: [u8; 32],
    pub(crate) stored: [u8; 32],
    pub(crate) server: [u8; 32],
}

/// The keys of a password with a salt, after so many rounds.
///
/// Source: RFC 5802, "SCRAM Algorithm Overview".
pub(crate) fn keys_of(password: &[u8], salt: &[u8], rounds: u32) -> Keys
    requires { 1 ≤ rounds }
    ensures { IsKeysOf result (salted_password password.now salt.now rounds) }
{
    let salted = salted(password, salt, rounds);
    let client = hmac(salted.as_slice(), b"Client Key");
    let stored = Sha256::digest(client.as_slice());
    let server = hmac(salted.as_slice(), b"Server Key");
    Keys {
        client,
        stored,
        server,
    }
}

/// Whether a proof is of the stored key.
pub(crate) fn proves(stored: &[u8; 32], auth: &[u8], proof: &[u8; 32]) -> bool
    ensures { IsTrue result ↔ Proves stored.now auth.now proof.now }
{
    let signature = hmac(stored.as_slice(), auth);
    let key = xor_bytes(proof, &signature);
    let digest = Sha256::digest(key.as_slice());
    digest.as_slice() == stored.as_slice()
}
