//! What a client says while it shows its password: a message `p` with any body.
ghost use Rattle.std.specs.Prelude.{◌≡◌, ◌↔◌, ◌++◌, ℕ, List as Sequence, length, IfOk, OnOk, OnErr, IsTrue};
ghost use Rattle.pg_messages.specs.declared.read.Read.TheVariants.{Whole, More, Bad, TooLong};
ghost use Rattle.pg_messages.specs.Frame.{framed, message_layout, IsCut, IsBadAt, IsTooLong, BeginsWith};
ghost use Rattle.pg_messages.specs.Login.{IsLoginType, IsLoginForm, LoginFits};
ghost use Rattle.pg_messages.specs.Fronts.{login_front};
ghost use Rattle.pg_messages.specs.Kept.{Keeps};

use crate::frame::{MESSAGE, frame_of};
use crate::read::Read;
use crate::spelling::{put_bytes, put_head};
use pool_base::{List, NoMemory};
use std::alloc::Global;

#[tactic(auto, unfolding(crate::specs::Fronts::login_front))]
fn login_front_of(alloc: Global, bytes: &[u8]) -> Result<Read<List<u8>>, NoMemory>
    ensures { IfOk result (λ read. read ≡ login_front bytes.now) }
{
    let [b'p', rest @ ..] = bytes else {
        return Ok(if bytes.is_empty() {
            Read::More
        } else {
            Read::Bad { place: 0 }
        });
    };
    match frame_of(MESSAGE, rest) {
        Read::Whole {
            message: body,
            length,
        } => {
            let message = List::from_slice(alloc, body)?;
            Ok(Read::Whole { message, length })
        }
        Read::More => Ok(Read::More),
        Read::Bad { place } => Ok(Read::Bad { place }),
        Read::TooLong { stated } => Ok(Read::TooLong { stated }),
    }
}

/// Reads the body of a message `p` at the front of `bytes`. What follows it is not looked at.
///
/// Shape: `Byte1 'p'`, `Int32 length`, body. The length counts itself and the body, not the type.
/// Source: PostgreSQL, Frontend/Backend Protocol, "Message Formats", SASLInitialResponse and
/// SASLResponse. House rule: a length is at most 1048576.
pub fn read_login(alloc: Global, bytes: &[u8]) -> Result<Read<List<u8>>, NoMemory>
    // Whole, exactly where the bytes begin with the spelling of that body.
    ensures whole { IfOk result (λ read. (body : Sequence ℕ) (n : ℕ) → (read ≡ Whole body n)
        ↔ BeginsWith IsLoginForm body n bytes.now) }
    ensures more { IfOk result (λ read. (read ≡ More)
        ↔ IsCut message_layout IsLoginType bytes.now) }

    // Which fault it is.
    ensures bad { IfOk result (λ read. (place : ℕ) → (read ≡ Bad place)
        ↔ IsBadAt message_layout IsLoginType IsLoginForm place bytes.now) }
    ensures too_long { IfOk result (λ read. (n : ℕ) → (read ≡ TooLong n)
        ↔ IsTooLong message_layout IsLoginType n bytes.now) }

    // All of that, as a function of the bytes.
    ensures exact { IfOk result (λ read. read ≡ login_front bytes.now) }
{
    login_front_of(alloc, bytes)
}

fn put_login(body: &[u8], onto: &mut List<u8>) -> Result<(), NoMemory>
    requires { LoginFits body.now }
    ensures put { OnOk result (onto.new ≡ onto.old ++ framed 112 body.now) }
    ensures kept { OnErr result (Keeps onto.old onto.new) }
{
    put_head(b'p', body.len(), onto)?;
    put_bytes(body, onto)
}

/// Appends a message `p` with this body.
///
/// Source: PostgreSQL, Frontend/Backend Protocol, "Message Formats", SASLInitialResponse and
/// SASLResponse.
pub fn write_login(body: &[u8], onto: &mut List<u8>) -> Result<(), NoMemory>
    requires { LoginFits body.now }
    ensures spelled { OnOk result (onto.new ≡ onto.old ++ framed 112 body.now) }
    // What was appended is read again as the same body, whatever follows it.
    ensures again { OnOk result ((rest : Sequence ℕ)
        → login_front (framed 112 body.now ++ rest) ≡ Whole body.now (length (framed 112
        body.now))) }
    ensures kept { OnErr result (onto.new ≡ onto.old) }
{
    let before = onto.len();
    let written = put_login(body, onto);
    if written.is_err() {
        onto.truncate(before);
    }
    written
}

/// Whether a body can be written.
pub fn login_fits(body: &[u8]) -> bool
    ensures { IsTrue result ↔ LoginFits body.now }
{
    body.len() <= 1_048_572
}
