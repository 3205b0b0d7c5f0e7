//! The code of an error.
ghost use Rattle.std.specs.Prelude.{◌≡◌, ℕ, List, Some, option_map, IfSome, IfNone, length};
ghost use Rattle.pool_base.specs.Codes.{IsCode};
ghost use Rattle.postgres_link.specs.Asked.{code_part};

use pg_messages::Part;
use pool_base::Code;

/// The text of the first part that has a code.
fn code_part(parts: &[Part]) -> Option<&[u8]>
    ensures { option_map (λ x. x.now) result ≡ code_part parts.now }
{
    let mut rest = parts;
    while let [part, after @ ..] = rest {
        if part.tag == b'C' {
            return Some(part.text.as_slice());
        }
        rest = after;
    }
    None
}

/// The code that the text is, if it is one.
fn code_in(text: &[u8]) -> Option<Code>
    ensures some { IfSome result (λ code. code.bytes ≡ text.now) }
    ensures spelled { IfSome result (λ code. IsCode code.bytes) }
    ensures long { IfSome result (λ code. length code.bytes ≡ 5) }
    ensures none { IfNone result (length text.now ≡ 5 → IsCode text.now → ⊥) }
{
    match <[u8; 5]>::try_from(text) {
        Ok(bytes) => Code::from_bytes(bytes),
        Err(_) => None,
    }
}

/// The code of an error, if it has one.
pub(crate) fn code_of(parts: &[Part]) -> Option<Code>
    ensures some { IfSome result (λ code. code_part parts.now ≡ Some code.bytes) }
    ensures spelled { IfSome result (λ code. IsCode code.bytes) }
    ensures long { IfSome result (λ code. length code.bytes ≡ 5) }
    ensures none { IfNone result ((code : List ℕ) → code_part parts.now ≡ Some code
        → length code ≡ 5 → IsCode code → ⊥) }
{
    match code_part(parts) {
        Some(text) => code_in(text),
        None => None,
    }
}
