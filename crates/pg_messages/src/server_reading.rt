//! Reading a server's messages.
ghost use Rattle.std.specs.Prelude.{◌≡◌, ◌↔◌, IfOk, IsTrue, ℕ};
ghost use Rattle.pg_messages.specs.declared.server.ServerMessage.{ServerMessage};
ghost use Rattle.pg_messages.specs.declared.read.Read.TheVariants.{Whole, More, Bad, TooLong};
ghost use Rattle.pg_messages.specs.Frame.{message_layout, IsCut, IsBadAt, IsTooLong, BeginsWith};
ghost use Rattle.pg_messages.specs.Server.{IsServerType, IsServerForm};
ghost use Rattle.pg_messages.specs.Reading.{Gives};
ghost use Rattle.pg_messages.specs.Bodies.{is_server_type, sasl_in, auth_in, status_in, key_in, ready_in, columns_in, row_in, complete_in, error_in, notice_in, kinds_in, server_in};
ghost use Rattle.pg_messages.specs.Fronts.{server_front};

use crate::entries::{counted_of, zero_ended_of};
use crate::field_fault::FieldFault;
use crate::fields::{i32_of, string_of, u32_of, whole_of};
use crate::frame::{MESSAGE, frame_of, judged};
use crate::read::Read;
use crate::server::{SASL_NAMES, ServerMessage};
use pool_base::{List, NoMemory};
use std::alloc::Global;

/// The ways in which a password may be shown.
#[tactic(auto, unfolding(crate::specs::Bodies::sasl_in))]
fn sasl_of(names: &[u8]) -> Result<ServerMessage, FieldFault>
    ensures { Gives (λ m. m) result (sasl_in names.now) }
{
    if names != SASL_NAMES {
        return Err(FieldFault::Malformed);
    }
    Ok(ServerMessage::AuthSasl)
}

#[tactic(auto, unfolding(crate::specs::Bodies::auth_in))]
fn auth_of(alloc: Global, body: &[u8]) -> Result<ServerMessage, FieldFault>
    ensures { Gives (λ m. m) result (auth_in body.now) }
{
    let (number, rest) = u32_of(body)?;
    match number {
        0 => whole_of(ServerMessage::AuthOk, rest),
        10 => sasl_of(rest),
        11 => {
            let body = List::from_slice(alloc, rest)?;
            Ok(ServerMessage::AuthContinue { body })
        }
        12 => {
            let body = List::from_slice(alloc, rest)?;
            Ok(ServerMessage::AuthFinal { body })
        }
        _ => Err(FieldFault::Malformed),
    }
}

#[tactic(auto, unfolding(crate::specs::Bodies::status_in))]
fn status_of(alloc: Global, body: &[u8]) -> Result<ServerMessage, FieldFault>
    ensures { Gives (λ m. m) result (status_in body.now) }
{
    let (name, rest) = string_of(alloc, body)?;
    let (value, rest) = string_of(alloc, rest)?;
    whole_of(ServerMessage::ParameterStatus { name, value }, rest)
}

#[tactic(auto, unfolding(crate::specs::Bodies::key_in))]
fn key_of(body: &[u8]) -> Result<ServerMessage, FieldFault>
    ensures { Gives (λ m. m) result (key_in body.now) }
{
    let (process, rest) = i32_of(body)?;
    let (secret, rest) = i32_of(rest)?;
    whole_of(ServerMessage::BackendKey { process, secret }, rest)
}

#[tactic(auto, unfolding(crate::specs::Bodies::ready_in))]
fn ready_of(body: &[u8]) -> Result<ServerMessage, FieldFault>
    ensures { Gives (λ m. m) result (ready_in body.now) }
{
    match body {
        [status @ (b'I' | b'T' | b'E'), rest @ ..] => {
            whole_of(ServerMessage::Ready { status: *status }, rest)
        }
        _ => Err(FieldFault::Malformed),
    }
}

#[tactic(auto, unfolding(crate::specs::Bodies::columns_in))]
fn columns_of(alloc: Global, body: &[u8]) -> Result<ServerMessage, FieldFault>
    ensures { Gives (λ m. m) result (columns_in body.now) }
{
    let (fields, rest) = counted_of(alloc, body)?;
    whole_of(ServerMessage::RowDescription { fields }, rest)
}

#[tactic(auto, unfolding(crate::specs::Bodies::row_in))]
fn row_of(alloc: Global, body: &[u8]) -> Result<ServerMessage, FieldFault>
    ensures { Gives (λ m. m) result (row_in body.now) }
{
    let (values, rest) = counted_of(alloc, body)?;
    whole_of(ServerMessage::DataRow { values }, rest)
}

#[tactic(auto, unfolding(crate::specs::Bodies::complete_in))]
fn complete_of(alloc: Global, body: &[u8]) -> Result<ServerMessage, FieldFault>
    ensures { Gives (λ m. m) result (complete_in body.now) }
{
    let (tag, rest) = string_of(alloc, body)?;
    whole_of(ServerMessage::Complete { tag }, rest)
}

#[tactic(auto, unfolding(crate::specs::Bodies::error_in))]
fn error_of(alloc: Global, body: &[u8]) -> Result<ServerMessage, FieldFault>
    ensures { Gives (λ m. m) result (error_in body.now) }
{
    let (parts, rest) = zero_ended_of(alloc, body)?;
    whole_of(ServerMessage::Error { parts }, rest)
}

#[tactic(auto, unfolding(crate::specs::Bodies::notice_in))]
fn notice_of(alloc: Global, body: &[u8]) -> Result<ServerMessage, FieldFault>
    ensures { Gives (λ m. m) result (notice_in body.now) }
{
    let (parts, rest) = zero_ended_of(alloc, body)?;
    whole_of(ServerMessage::Notice { parts }, rest)
}

#[tactic(auto, unfolding(crate::specs::Bodies::kinds_in))]
fn kinds_of(alloc: Global, body: &[u8]) -> Result<ServerMessage, FieldFault>
    ensures { Gives (λ m. m) result (kinds_in body.now) }
{
    let (kinds, rest) = counted_of(alloc, body)?;
    whole_of(ServerMessage::ParameterDescription { kinds }, rest)
}

/// Whether a server's message may begin so.
fn is_server_type(tag: u8) -> bool
    ensures { result ≡ is_server_type tag }
{
    matches!(
        tag,
        b'R' | b'S'
            | b'K'
            | b'Z'
            | b'T'
            | b'D'
            | b'C'
            | b'E'
            | b'N'
            | b't'
            | b'I'
            | b'1'
            | b'2'
            | b'3'
            | b'n'
            | b's'
    )
}

#[tactic(auto, unfolding(crate::specs::Bodies::server_in))]
fn server_of(alloc: Global, tag: u8, body: &[u8]) -> Result<ServerMessage, FieldFault>
    requires { IsTrue (is_server_type tag) }
    ensures { Gives (λ m. m) result (server_in tag body.now) }
{
    match tag {
        b'R' => auth_of(alloc, body),
        b'S' => status_of(alloc, body),
        b'K' => key_of(body),
        b'Z' => ready_of(body),
        b'T' => columns_of(alloc, body),
        b'D' => row_of(alloc, body),
        b'C' => complete_of(alloc, body),
        b'E' => error_of(alloc, body),
        b'N' => notice_of(alloc, body),
        b't' => kinds_of(alloc, body),
        b'I' => whole_of(ServerMessage::Empty, body),
        b'1' => whole_of(ServerMessage::ParseComplete, body),
        b'2' => whole_of(ServerMessage::BindComplete, body),
        b'3' => whole_of(ServerMessage::CloseComplete, body),
        b'n' => whole_of(ServerMessage::NoData, body),
        _ => whole_of(ServerMessage::Suspended, body),
    }
}

#[tactic(auto, unfolding(crate::specs::Fronts::server_front))]
fn server_front_of(alloc: Global, bytes: &[u8]) -> Result<Read<ServerMessage>, NoMemory>
    ensures { IfOk result (λ read. read ≡ server_front bytes.now) }
{
    let [tag, rest @ ..] = bytes else {
        return Ok(Read::More);
    };
    if !is_server_type(*tag) {
        return Ok(Read::Bad { place: 0 });
    }
    match frame_of(MESSAGE, rest) {
        Read::Whole {
            message: body,
            length,
        } => judged(MESSAGE, length, server_of(alloc, *tag, body)),
        Read::More => Ok(Read::More),
        Read::Bad { place } => Ok(Read::Bad { place }),
        Read::TooLong { stated } => Ok(Read::TooLong { stated }),
    }
}

/// Reads the message of a server at the front of `bytes`. What follows it is not looked at.
///
/// Shape: `Byte1 type`, `Int32 length`, body. The length counts itself and the body, not the type.
/// Source: PostgreSQL, Frontend/Backend Protocol, "Message Formats". House rule: a length is at
/// most 1048576.
pub fn read_server(alloc: Global, bytes: &[u8]) -> Result<Read<ServerMessage>, NoMemory>
    // Whole, exactly where the bytes begin with the spelling of that message.
    ensures whole { IfOk result (λ read. (m : ServerMessage) (n : ℕ) → (read ≡ Whole m n)
        ↔ BeginsWith IsServerForm m n bytes.now) }
    ensures more { IfOk result (λ read. (read ≡ More)
        ↔ IsCut message_layout IsServerType bytes.now) }

    // Which fault it is.
    ensures bad { IfOk result (λ read. (place : ℕ) → (read ≡ Bad place)
        ↔ IsBadAt message_layout IsServerType IsServerForm place bytes.now) }
    ensures too_long { IfOk result (λ read. (n : ℕ) → (read ≡ TooLong n)
        ↔ IsTooLong message_layout IsServerType n bytes.now) }

    // All of that, as a function of the bytes.
    ensures exact { IfOk result (λ read. read ≡ server_front bytes.now) }
{
    server_front_of(alloc, bytes)
}
