//! SQLSTATE codes.
ghost use Rattle.std.specs.Prelude.{◌≡◌, ◌↔◌, IsSome, IfSome, IsTrue, All};
ghost use Rattle.pool_base.specs.Codes.{IsCodeByte, IsCode};

/// A SQLSTATE code: five digits or upper-case letters of ASCII.
///
/// Source: PostgreSQL, "PostgreSQL Error Codes".
#[derive(Clone, Copy, Debug, PartialEq, Eq)]
pub struct Code {
    pub bytes: [u8; 5],
    ghost spelled: { ∥ IsCode bytes ∥₁ },
}

/// Whether a byte may stand in a code.
fn is_code_byte(byte: u8) -> bool
    ensures { IsTrue result ↔ IsCodeByte byte }
{
    matches!(byte, b'0'..=b'9' | b'A'..=b'Z')
}

impl Code {
    /// The code of these bytes, if they are one.
    pub fn from_bytes(bytes: [u8; 5]) -> Option<Code>
        ensures there { IsSome result ↔ IsCode bytes }
        ensures bytes { IfSome result (λ c. c.bytes ≡ bytes) }
    {
        if bytes.iter().all(|byte| is_code_byte(*byte)) {
            return Some(Code { bytes });
        }
        None
    }
}
