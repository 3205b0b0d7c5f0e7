//! Pieces of a message.
ghost use Rattle.std.specs.Prelude.{◌≡◌, ◌≢◌, ◌++◌, ◌∷◌, ℕ, List as Sequence, MatchOption};
ghost use Rattle.scram.specs.Words.{Lacks};

/// What stands behind these bytes, if they are in front.
pub(crate) fn after<'a>(front: &[u8], bytes: &'a [u8]) -> Option<&'a [u8]>
    ensures { MatchOption result ((rest : Sequence ℕ) → bytes.now ≢ front.now ++ rest)
        (λ rest. bytes.now ≡ front.now ++ rest.now) }
{
    bytes.strip_prefix(front)
}

/// What stands before the first such byte, and what stands behind it.
fn cut(mark: u8, bytes: &[u8]) -> Option<(&[u8], &[u8])>
    ensures { MatchOption result (Lacks mark bytes.now)
        (λ parts. Lacks mark parts.0.now
        × (bytes.now ≡ parts.0.now ++ mark ∷ parts.1.now)) }
{
    for (at, byte) in bytes.iter().enumerate() {
        if *byte == mark {
            return Some((&bytes[..at], &bytes[at + 1..]));
        }
    }
    None
}

/// What stands between these bytes, which are in front, and the first such byte behind them; and
/// what stands behind that.
pub(crate) fn field<'a>(front: &[u8], mark: u8, bytes: &'a [u8]) -> Option<(&'a [u8], &'a [u8])>
    ensures { MatchOption result
        ((value rest : Sequence ℕ) → Lacks mark value
        → bytes.now ≢ front.now ++ (value ++ mark ∷ rest))
        (λ parts. Lacks mark parts.0.now
        × (bytes.now ≡ front.now ++ (parts.0.now ++ mark ∷ parts.1.now))) }
{
    cut(mark, after(front, bytes)?)
}
