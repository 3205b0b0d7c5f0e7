//! The client's side of an exchange.
//!
//! ```text
//! Fresh --first--> Opened --answer--> Answered --check--> Over
//!   |                 |                                     ^
//!   +-----------------+-------------- a fault --------------+
//! ```
//!
//! Every call ends an exchange that it does not take on.
ghost use Rattle.std.specs.Prelude.{◌≡◌, ◌≢◌, ◌≤◌, IfOk, OnOk, OnErr};
ghost use Rattle.scram.specs.Words.{IsPassword};
ghost use Rattle.scram.specs.Keys.{salted_password};
ghost use Rattle.scram.specs.Messages.{auth_message};
ghost use Rattle.scram.specs.Clients.{IsFresh, IsOpening, Proven, IsAnswer, IsNoChallenge, IsChecked, IsForged, IsNoVerdict};
ghost use Rattle.scram.specs.declared.client.ScramClient.{ScramClient};

use crate::binding::Binding;
use crate::challenge::{Challenge, read_challenge};
use crate::fault::ScramFault;
use crate::keys::keys_of;
use crate::mac::{hmac, xor_bytes};
use crate::opening::bare_text;
use crate::proof::{joined, proof_text, unproved_text};
use crate::verdict::read_verdict;
use pool_base::{List, NoMemory};
use std::alloc::Global;
use std::mem;

/// The client's side of an exchange.
#[derive(Drop)]
pub enum ScramClient {
    /// Nothing is said.
    Fresh {
        user: List<u8>,
        password: List<u8>,
        nonce: List<u8>,
    },
    /// The first message is said. `bare` is that without its header.
    Opened {
        password: List<u8>,
        nonce: List<u8>,
        bare: List<u8>,
    },
    /// The proof is given, and this signature is awaited.
    Answered {
        expected: [u8; 32],
    },
    /// The exchange has ended.
    Over,
}

impl ScramClient {
    /// The beginning of an exchange. The name is the user's as it stands in the message, with `=2C`
    /// for a comma and `=3D` for `=`.
    pub fn new(user: List<u8>, password: List<u8>, nonce: List<u8>) -> ScramClient
        requires { IsPassword password }
        ensures { result ≡ ScramClient.Fresh user password nonce }
    {
        ScramClient::Fresh {
            user,
            password,
            nonce,
        }
    }

    /// The client's first message. It offers no binding to a channel.
    pub fn first(&mut self, alloc: Global) -> Result<List<u8>, NoMemory>
        requires { IsFresh self.old }
        ensures opened { IfOk result (λ message. IsOpening self.old message self.new) }
        ensures over { OnErr result (self.new ≡ ScramClient.Over) }
    {
        match mem::replace(self, ScramClient::Over) {
            ScramClient::Fresh {
                user,
                password,
                nonce,
            } => {
                let bare = bare_text(alloc, user.as_slice(), nonce.as_slice())?;
                let mut message = List::from_slice(alloc, Binding::Unable.header())?;
                message.extend_from_slice(bare.as_slice())?;
                *self = ScramClient::Opened {
                    password,
                    nonce,
                    bare,
                };
                Ok(message)
            }
            ScramClient::Opened { .. } | ScramClient::Answered { .. } | ScramClient::Over => {
                unreachable!()
            }
        }
    }

    /// The answer to the server's first message: the proof that the password is known.
    ///
    /// Errors: a call out of turn is `Malformed`.
    pub fn answer(&mut self, alloc: Global, message: &[u8]) -> Result<List<u8>, ScramFault>
        ensures answered { IfOk result (λ reply. IsAnswer self.old message.now reply self.new) }
        ensures over { OnErr result (self.new ≡ ScramClient.Over) }

        // Which fault it is.
        ensures malformed { result ≡ Err ScramFault.Malformed
            → IsNoChallenge self.old message.now }
        ensures no_proof { result ≢ Err ScramFault.WrongProof }
    {
        match mem::replace(self, ScramClient::Over) {
            ScramClient::Opened {
                password,
                nonce,
                bare,
            } => match read_challenge(alloc, nonce.as_slice(), message)? {
                Some(challenge) => {
                    let said = joined(alloc, bare.as_slice(), message)?;
                    let proven = prove(alloc, password.as_slice(), said.as_slice(), &challenge)?;
                    *self = proven.next;
                    Ok(proven.reply)
                }
                None => Err(ScramFault::Malformed),
            },
            ScramClient::Fresh { .. } | ScramClient::Answered { .. } | ScramClient::Over => {
                Err(ScramFault::Malformed)
            }
        }
    }

    /// Takes the server's last message. The exchange is over then, and with `Ok` the server has
    /// shown that it knows the keys of the password.
    ///
    /// Errors: a call out of turn is `Malformed`.
    pub fn check(&mut self, alloc: Global, message: &[u8]) -> Result<(), ScramFault>
        ensures checked { OnOk result (IsChecked self.old message.now) }
        ensures over { self.new ≡ ScramClient.Over }

        // Which fault it is.
        ensures malformed { result ≡ Err ScramFault.Malformed → IsNoVerdict self.old message.now }
        ensures wrong { result ≡ Err ScramFault.WrongProof → IsForged self.old message.now }
    {
        match mem::replace(self, ScramClient::Over) {
            ScramClient::Answered { expected } => match read_verdict(alloc, message)? {
                Some(given) => {
                    if given.as_slice() == expected.as_slice() {
                        Ok(())
                    } else {
                        Err(ScramFault::WrongProof)
                    }
                }
                None => Err(ScramFault::Malformed),
            },
            ScramClient::Fresh { .. } | ScramClient::Opened { .. } | ScramClient::Over => {
                Err(ScramFault::Malformed)
            }
        }
    }
}

/// What follows a server's first message.
#[derive(Drop)]
struct Proving {
    next: ScramClient,
    reply: List<u8>,
}

/// The answer to a server's first message, by what was said up to it.
fn prove(
    alloc: Global,
    password: &[u8],
    said: &[u8],
    challenge: &Challenge,
) -> Result<Proving, NoMemory>
    requires { 1 ≤ challenge.now.rounds }
    ensures { IfOk result (λ p. Proven
        (salted_password password.now challenge.now.salt challenge.now.rounds)
        (auth_message said.now Binding.Unable challenge.now.nonce) challenge.now.nonce
        p.reply p.next) }
{
    let keys = keys_of(password, challenge.salt.as_slice(), challenge.rounds);
    let unproved = unproved_text(alloc, Binding::Unable, challenge.nonce.as_slice())?;
    let auth = joined(alloc, said, unproved.as_slice())?;
    let signature = hmac(keys.stored.as_slice(), auth.as_slice());
    let proof = xor_bytes(&keys.client, &signature);
    let reply = proof_text(alloc, unproved.as_slice(), &proof)?;
    let expected = hmac(keys.server.as_slice(), auth.as_slice());
    Ok(Proving {
        next: ScramClient::Answered { expected },
        reply,
    })
}
