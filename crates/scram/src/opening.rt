//! The client's first message.
ghost use Rattle.std.specs.Prelude.{◌≡◌, ◌++◌, ℕ, List as Sequence, MatchOption, IfOk, IsTrue, ◌↔◌};
ghost use Rattle.scram.specs.Words.{IsName, IsNonce};
ghost use Rattle.scram.specs.Messages.{client_first, client_first_bare, IsClientFirst, IsSomeFirst};
ghost use Rattle.scram.specs.declared.binding.Binding.{Binding};

use crate::binding::{Binding, split_header};
use crate::pieces::{after, field};
use crate::words::{is_name, is_nonce};
use pool_base::{List, NoMemory};
use std::alloc::Global;

/// The parts of a client's first message.
#[derive(Clone, Copy)]
pub(crate) struct Opening<'a> {
    pub(crate) binding: Binding,
    /// The message without its header.
    pub(crate) bare: &'a [u8],
    pub(crate) user: &'a [u8],
    pub(crate) nonce: &'a [u8],
}

/// The client's first message without its header.
pub(crate) fn bare_text(alloc: Global, user: &[u8], nonce: &[u8]) -> Result<List<u8>, NoMemory>
    ensures { IfOk result (λ text. text ≡ client_first_bare user.now nonce.now) }
{
    let mut text = List::from_slice(alloc, b"n=")?;
    text.extend_from_slice(user)?;
    text.extend_from_slice(b",r=")?;
    text.extend_from_slice(nonce)?;
    Ok(text)
}

/// The name and the nonce of a first message without its header.
fn read_bare(bare: &[u8]) -> Option<(&[u8], &[u8])>
    ensures { MatchOption result
        ((user nonce : Sequence ℕ) → IsName user → IsNonce nonce
        → bare.now ≡ client_first_bare user nonce → ⊥)
        (λ parts. IsName parts.0.now × IsNonce parts.1.now
        × (bare.now ≡ client_first_bare parts.0.now parts.1.now)) }
{
    let (user, behind) = field(b"n=", b',', bare)?;
    let nonce = after(b"r=", behind)?;
    if is_name(user) && is_nonce(nonce) {
        Some((user, nonce))
    } else {
        None
    }
}

/// The parts of a client's first message.
///
/// Source: RFC 5802, "Formal Syntax", `client-first-message`. House rule: no other attributes.
pub(crate) fn read_opening(message: &[u8]) -> Option<Opening<'_>>
    ensures is { MatchOption result
        ((binding : Binding) (user nonce : Sequence ℕ)
        → IsClientFirst message.now binding user nonce → ⊥)
        (λ o. IsClientFirst message.now o.binding o.user.now o.nonce.now
        × (o.bare.now ≡ client_first_bare o.user.now o.nonce.now)) }
{
    let (binding, bare) = split_header(message)?;
    let (user, nonce) = read_bare(bare)?;
    Some(Opening {
        binding,
        bare,
        user,
        nonce,
    })
}

/// Whether a message is a client's first one.
pub fn is_first(message: &[u8]) -> bool
    ensures { IsTrue result ↔ IsSomeFirst message.now }
{
    read_opening(message).is_some()
}
