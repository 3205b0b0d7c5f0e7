//! What a client says of a binding to a channel.
ghost use Rattle.std.specs.Prelude.{◌≡◌, ◌≢◌, ◌++◌, ℕ, List as Sequence, MatchOption};
ghost use Rattle.scram.specs.Words.{in_base64};
ghost use Rattle.scram.specs.Messages.{header_of};
ghost use Rattle.scram.specs.declared.binding.Binding.{Binding};

use crate::pieces::after;

/// What a client says of a binding to a channel. There is none either way.
#[derive(Clone, Copy, Debug, PartialEq, Eq)]
pub enum Binding {
    /// `n`: the client cannot bind.
    Unable,
    /// `y`: the client can bind, and was not offered it.
    Unoffered,
}

impl Binding {
    /// The header of the client's first message.
    pub(crate) fn header(self) -> &'static [u8]
        ensures { result.now ≡ header_of self }
    {
        match self {
            Binding::Unable => b"n,,",
            Binding::Unoffered => b"y,,",
        }
    }

    /// The header in base64.
    pub(crate) fn code(self) -> &'static [u8]
        ensures { result.now ≡ in_base64 (header_of self) }
    {
        match self {
            Binding::Unable => b"biws",
            Binding::Unoffered => b"eSws",
        }
    }
}

/// What the header says, and what stands behind it.
pub(crate) fn split_header(message: &[u8]) -> Option<(Binding, &[u8])>
    ensures { MatchOption result
        ((binding : Binding) (rest : Sequence ℕ) → message.now ≢ header_of binding ++ rest)
        (λ parts. message.now ≡ header_of parts.0 ++ parts.1.now) }
{
    if let Some(bare) = after(b"n,,", message) {
        return Some((Binding::Unable, bare));
    }
    if let Some(bare) = after(b"y,,", message) {
        return Some((Binding::Unoffered, bare));
    }
    None
}
