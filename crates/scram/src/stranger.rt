//! A verifier for a name that no user has.
ghost use Rattle.std.specs.Prelude.{◌≡◌, length, take, min, IfOk};
ghost use Rattle.scram.specs.Mac.{hmac};

use crate::mac::hmac;
use crate::verifier::Verifier;
use pool_base::{List, NoMemory};
use std::alloc::Global;

/// A verifier for a name that no user has, so that an exchange with it looks like one of a user
/// with a wrong password. It is made of the name and of a secret, and is the same each time.
///
/// Units: its salt has as many bytes as that of `like`, and at most 32.
pub fn stand_in(
    alloc: Global,
    secret: &[u8],
    name: &[u8],
    like: &Verifier,
) -> Result<Verifier, NoMemory>
    ensures rounds { IfOk result (λ made. made.rounds ≡ like.now.rounds) }
    ensures salt { IfOk result (λ made. made.salt
        ≡ take (min (length like.now.salt) 32) (hmac secret.now name.now)) }
{
    let code = hmac(secret, name);
    let salt = List::from_slice(alloc, &code[..like.salt.len().min(32)])?;
    let stored = hmac(secret, salt.as_slice());
    let server = hmac(stored.as_slice(), name);
    Ok(Verifier {
        rounds: like.rounds,
        salt,
        stored,
        server,
    })
}
