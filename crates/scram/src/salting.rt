//! The hash of a password with a salt, which takes many rounds.
ghost use Rattle.std.specs.Prelude.{◌≡◌, ◌≤◌};
ghost use Rattle.scram.specs.Mac.{hi};

use crate::mac::{Keyed, xor_bytes};

/// The hash of a password with a salt, after so many rounds. It takes no memory.
///
/// Source: RFC 5802, "Notation", `Hi`.
pub(crate) fn salted(password: &[u8], salt: &[u8], rounds: u32) -> [u8; 32]
    requires { 1 ≤ rounds }
    ensures { result ≡ hi password.now salt.now rounds }
{
    let key = Keyed::new(password);
    let mut last = key.sign_parts(salt, &[0, 0, 0, 1]);
    let mut all = last;
    'rounds: for done in 0..rounds - 1 {
        let next = key.sign(&last);
        let sum = xor_bytes(&all, &next);
        last = next;
        all = sum;
    }
    all
}
