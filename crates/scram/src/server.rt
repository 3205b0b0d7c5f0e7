//! The server's side of an exchange.
//!
//! ```text
//! Fresh --first--> Asked --last--> Over
//!   |                                ^
//!   +------------ a fault -----------+
//! ```
//!
//! Every call ends an exchange that it does not take on.
ghost use Rattle.std.specs.Prelude.{◌≡◌, ◌≢◌, IfOk, OnErr};
ghost use Rattle.scram.specs.Servers.{Asks, IsChallenge, IsNoFirst, IsAccepted, IsUnproven, IsNoLast};
ghost use Rattle.scram.specs.declared.server.ScramServer.{ScramServer};

use crate::binding::Binding;
use crate::challenge::challenge_text;
use crate::fault::ScramFault;
use crate::keys::proves;
use crate::mac::hmac;
use crate::opening::{Opening, read_opening};
use crate::proof::{joined, read_proof, unproved_text};
use crate::verdict::verdict_text;
use crate::verifier::Verifier;
use pool_base::{List, NoMemory};
use std::alloc::Global;
use std::mem;

/// The server's side of an exchange.
#[derive(Drop)]
pub enum ScramServer {
    /// The client has said nothing. `nonce` is what will be added to the client's.
    Fresh {
        verifier: Verifier,
        nonce: List<u8>,
    },
    /// The client's first message was answered. `said` is both without the header.
    Asked {
        verifier: Verifier,
        binding: Binding,
        nonce: List<u8>,
        said: List<u8>,
    },
    /// The exchange has ended.
    Over,
}

impl ScramServer {
    /// The beginning of an exchange.
    pub fn new(verifier: Verifier, nonce: List<u8>) -> ScramServer
        ensures { result ≡ ScramServer.Fresh verifier nonce }
    {
        ScramServer::Fresh { verifier, nonce }
    }

    /// The answer to the client's first message.
    ///
    /// Errors: a call out of turn is `Malformed`.
    pub fn first(&mut self, alloc: Global, message: &[u8]) -> Result<List<u8>, ScramFault>
        ensures answered { IfOk result
            (λ reply. IsChallenge message.now reply self.old self.new) }
        ensures over { OnErr result (self.new ≡ ScramServer.Over) }

        // Which fault it is.
        ensures malformed { result ≡ Err ScramFault.Malformed → IsNoFirst self.old message.now }
        ensures no_proof { result ≢ Err ScramFault.WrongProof }
    {
        match mem::replace(self, ScramServer::Over) {
            ScramServer::Fresh { verifier, nonce } => match read_opening(message) {
                Some(opening) => {
                    let asked = ask(alloc, verifier, nonce.as_slice(), &opening)?;
                    *self = asked.next;
                    Ok(asked.reply)
                }
                None => Err(ScramFault::Malformed),
            },
            ScramServer::Asked { .. } | ScramServer::Over => Err(ScramFault::Malformed),
        }
    }

    /// The answer to the client's last message. The exchange is over then, and with `Ok` the client
    /// has shown that it knows the password.
    ///
    /// Errors: a call out of turn is `Malformed`.
    pub fn last(&mut self, alloc: Global, message: &[u8]) -> Result<List<u8>, ScramFault>
        ensures accepted { IfOk result (λ reply. IsAccepted self.old message.now reply) }
        ensures over { self.new ≡ ScramServer.Over }

        // Which fault it is.
        ensures malformed { result ≡ Err ScramFault.Malformed → IsNoLast self.old message.now }
        ensures wrong { result ≡ Err ScramFault.WrongProof → IsUnproven self.old message.now }
    {
        match mem::replace(self, ScramServer::Over) {
            ScramServer::Asked {
                verifier,
                binding,
                nonce,
                said,
            } => judge(
                alloc,
                &verifier,
                binding,
                nonce.as_slice(),
                said.as_slice(),
                message,
            ),
            ScramServer::Fresh { .. } | ScramServer::Over => Err(ScramFault::Malformed),
        }
    }
}

/// What follows a first message.
#[derive(Drop)]
struct Asking {
    next: ScramServer,
    reply: List<u8>,
}

/// The answer to a first message.
fn ask(
    alloc: Global,
    verifier: Verifier,
    nonce: &[u8],
    opening: &Opening<'_>,
) -> Result<Asking, NoMemory>
    ensures { IfOk result (λ a. Asks (ScramServer.Fresh verifier nonce.now) a.next a.reply
        opening.now.binding opening.now.nonce.now opening.now.bare.now) }
{
    let mut whole = List::from_slice(alloc, opening.nonce)?;
    whole.extend_from_slice(nonce)?;
    let reply = challenge_text(
        alloc,
        whole.as_slice(),
        verifier.salt.as_slice(),
        verifier.rounds,
    )?;
    let said = joined(alloc, opening.bare, reply.as_slice())?;
    Ok(Asking {
        next: ScramServer::Asked {
            verifier,
            binding: opening.binding,
            nonce: whole,
            said,
        },
        reply,
    })
}

/// The answer to a last message.
fn judge(
    alloc: Global,
    verifier: &Verifier,
    binding: Binding,
    nonce: &[u8],
    said: &[u8],
    message: &[u8],
) -> Result<List<u8>, ScramFault>
    ensures accepted { IfOk result (λ reply. IsAccepted
        (ScramServer.Asked verifier.now binding nonce.now said.now) message.now reply) }
    ensures malformed { result ≡ Err ScramFault.Malformed → IsNoLast
        (ScramServer.Asked verifier.now binding nonce.now said.now) message.now }
    ensures wrong { result ≡ Err ScramFault.WrongProof → IsUnproven
        (ScramServer.Asked verifier.now binding nonce.now said.now) message.now }
{
    let unproved = unproved_text(alloc, binding, nonce)?;
    let Some(proof) = read_proof(alloc, unproved.as_slice(), message)? else {
        return Err(ScramFault::Malformed);
    };
    let auth = joined(alloc, said, unproved.as_slice())?;
    if !proves(&verifier.stored, auth.as_slice(), &proof) {
        return Err(ScramFault::WrongProof);
    }
    let signature = hmac(verifier.server.as_slice(), auth.as_slice());
    let reply = verdict_text(alloc, &signature)?;
    Ok(reply)
}
