//! What a client is told that is not let in.
ghost use Rattle.std.specs.Prelude.{◌≡◌, ◌++◌, IfOk, OnOk};
ghost use Rattle.pg_messages.specs.Server.{spelling};
ghost use Rattle.login.specs.Refusals.{code_of, text_of, refusal_of, part_of};

use pg_messages::{Part, ServerMessage, write_server};
use pool_base::{List, NoMemory};
use std::alloc::Global;

/// Why a connection gets no session.
#[derive(Clone, Copy, Debug, PartialEq, Eq)]
pub enum Refusal {
    /// There is no user of the name, or the proof is wrong.
    Password,
    /// A message is not of its grammar, or may not come here.
    Malformed,
    /// A message is longer than it may be.
    TooLong,
    /// The start message asks for a minor version other than 0.
    MinorVersion,
    /// The start message asks for an encoding other than UTF-8.
    Encoding,
}

impl Refusal {
    /// The code of the error.
    fn code(self) -> &'static [u8]
        ensures { result.now ≡ code_of self }
    {
        match self {
            Refusal::Password => b"28P01",
            Refusal::Malformed => b"08P01",
            Refusal::TooLong => b"54000",
            Refusal::MinorVersion => b"0A000",
            Refusal::Encoding => b"22023",
        }
    }

    /// What the error says.
    fn text(self) -> &'static [u8]
        ensures { result.now ≡ text_of self }
    {
        match self {
            Refusal::Password => b"password authentication failed",
            Refusal::Malformed => b"protocol violation",
            Refusal::TooLong => b"a limit was passed",
            Refusal::MinorVersion => b"not in the profile: protocol minor version",
            Refusal::Encoding => b"client encoding is not UTF8",
        }
    }
}

/// A part of an error, put behind the others.
fn put_part(alloc: Global, parts: &mut List<Part>, tag: u8, text: &[u8]) -> Result<(), NoMemory>
    ensures { OnOk result (parts.new ≡ parts.old ++ part_of tag text.now) }
{
    let text = List::from_slice(alloc, text)?;
    parts.push(Part { tag, text })
}

/// The bytes of the error that the client is told. It ends the connection.
///
/// Shape: an ErrorResponse with the parts S, V, C and M.
/// Source: PostgreSQL, Frontend/Backend Protocol, "Error and Notice Message Fields".
pub fn refusal_bytes(alloc: Global, refusal: Refusal) -> Result<List<u8>, NoMemory>
    ensures { IfOk result (λ bytes. bytes ≡ spelling (refusal_of refusal)) }
{
    let mut parts = List::new(alloc);
    put_part(alloc, &mut parts, b'S', b"FATAL")?;
    put_part(alloc, &mut parts, b'V', b"FATAL")?;
    put_part(alloc, &mut parts, b'C', refusal.code())?;
    put_part(alloc, &mut parts, b'M', refusal.text())?;
    let mut bytes = List::new(alloc);
    write_server(&ServerMessage::Error { parts }, &mut bytes)?;
    Ok(bytes)
}
