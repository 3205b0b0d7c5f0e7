//! HMAC over SHA-256.
ghost use Rattle.std.specs.Prelude.{◌≡◌, ◌≤◌, ◌++◌, length};
ghost use Rattle.scram.specs.Mac.{filled, block_of, combined_with, hmac, xor_bytes, IsKeyed, signed_by};

use sha2::{Digest, Sha256};

/// How many bytes a block of the hash function has.
const BLOCK_LEN: usize = 64;

/// A key, as it is hashed before a text and before the digest of that.
#[derive(Drop)]
pub(crate) struct Keyed {
    inner: [u8; 64],
    outer: [u8; 64],
}

impl Keyed {
    pub(crate) fn new(key: &[u8]) -> Keyed
        ensures { IsKeyed result key.now }
    {
        let block = block_of(key);
        let inner = combined_with(0x36, &block);
        let outer = combined_with(0x5c, &block);
        Keyed { inner, outer }
    }

    /// The code of a text.
    pub(crate) fn sign(&self, text: &[u8]) -> [u8; 32]
        ensures { result ≡ signed_by self.now text.now }
    {
        let mut inner = Sha256::new();
        inner.update(self.inner.as_slice());
        inner.update(text);
        let digest = inner.finalize();
        let mut outer = Sha256::new();
        outer.update(self.outer.as_slice());
        outer.update(digest.as_slice());
        outer.finalize()
    }

    /// The code of a text in two parts.
    pub(crate) fn sign_parts(&self, front: &[u8], back: &[u8]) -> [u8; 32]
        ensures { result ≡ signed_by self.now (front.now ++ back.now) }
    {
        let mut inner = Sha256::new();
        inner.update(self.inner.as_slice());
        inner.update(front);
        inner.update(back);
        let digest = inner.finalize();
        let mut outer = Sha256::new();
        outer.update(self.outer.as_slice());
        outer.update(digest.as_slice());
        outer.finalize()
    }
}

/// The code of a text under a key.
#[tactic(auto, unfolding(crate::specs::Mac::hmac))]
pub(crate) fn hmac(key: &[u8], text: &[u8]) -> [u8; 32]
    ensures { result ≡ hmac key.now text.now }
{
    Keyed::new(key).sign(text)
}

/// A block: these bytes, and zeros behind them.
fn filled(bytes: &[u8]) -> [u8; 64]
    requires { length bytes.now ≤ 64 }
    ensures { result ≡ filled bytes.now }
{
    let mut block = [0u8; 64];
    for at in 0..bytes.len() {
        block[at] = bytes[at];
    }
    block
}

/// The block that a key fills.
fn block_of(key: &[u8]) -> [u8; 64]
    ensures { result ≡ block_of key.now }
{
    if key.len() > BLOCK_LEN {
        let digest = Sha256::digest(key);
        filled(digest.as_slice())
    } else {
        filled(key)
    }
}

/// A block, each byte combined with `pad` by exclusive or.
fn combined_with(pad: u8, block: &[u8; 64]) -> [u8; 64]
    ensures { result ≡ combined_with pad block.now }
{
    let mut combined = [0u8; 64];
    for at in 0..64 {
        combined[at] = block[at] ^ pad;
    }
    combined
}

/// Two digests, combined byte by byte by exclusive or.
pub(crate) fn xor_bytes(left: &[u8; 32], right: &[u8; 32]) -> [u8; 32]
    ensures { result ≡ xor_bytes left.now right.now }
{
    let mut combined = [0u8; 32];
    for at in 0..32 {
        combined[at] = left[at] ^ right[at];
    }
    combined
}
