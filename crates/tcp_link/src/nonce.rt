//! Nonces from the system's random bytes.
ghost use Rattle.std.specs.Prelude.{◌≡◌, ℕ, List as Sequence, length, IfOk, IfSome};
ghost use Rattle.scram.specs.Words.{in_base64};

use pool_base::{List, NoMemory};
use scram::nonce_of;
use std::alloc::Global;
use std::random::RandomSource;

/// How many random bytes a nonce is made of.
const SIZE: usize = 18;

/// A nonce of 18 random bytes, in base64. `None`: the system gives none.
pub fn fresh_nonce<R: RandomSource>(rt: &R, alloc: Global) -> Result<Option<List<u8>>, NoMemory>
    // As far as a contract can say: what bytes the system gives is not known.
    ensures { IfOk result (λ nonce. IfSome nonce (λ n. (bytes : Sequence ℕ)
        × (length bytes ≡ 18) × (n ≡ in_base64 bytes))) }
{
    let mut bytes = [0u8; SIZE];
    if rt.fill_bytes(&mut bytes).is_err() {
        return Ok(None);
    }
    Ok(Some(nonce_of(alloc, bytes.as_slice())?))
}
