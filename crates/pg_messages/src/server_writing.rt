//! Writing a server's messages.
ghost use Rattle.std.specs.Prelude.{◌≡◌, ◌++◌, ◌↔◌, ◌+◌, ◌-◌, ◌≤◌, ◌^◌, min, length, List as Sequence, ℕ, OnOk, OnErr, IsTrue};
ghost use Rattle.pg_messages.specs.declared.read.Read.TheVariants.{Whole};
ghost use Rattle.pg_messages.specs.Server.{tag_of, body_of, spelling, IsClean, HasFewParts, Fits, InRange};
ghost use Rattle.pg_messages.specs.Fronts.{server_front};
ghost use Rattle.pg_messages.specs.Kept.{Keeps};

use crate::server::{SASL_NAMES, ServerMessage};
use crate::spelling::{
    Spelled, entries_len, put_bytes, put_counted, put_head, put_string, put_zero_ended,
};
use crate::strings::{are_fields, are_parts, is_countable, is_string};
use pool_base::{List, NoMemory};

fn tag_of(message: &ServerMessage) -> u8
    ensures { result ≡ tag_of message.now }
{
    match message {
        ServerMessage::AuthOk
        | ServerMessage::AuthSasl
        | ServerMessage::AuthContinue { .. }
        | ServerMessage::AuthFinal { .. } => b'R',
        ServerMessage::ParameterStatus { .. } => b'S',
        ServerMessage::BackendKey { .. } => b'K',
        ServerMessage::Ready { .. } => b'Z',
        ServerMessage::RowDescription { .. } => b'T',
        ServerMessage::DataRow { .. } => b'D',
        ServerMessage::Complete { .. } => b'C',
        ServerMessage::Error { .. } => b'E',
        ServerMessage::Notice { .. } => b'N',
        ServerMessage::ParameterDescription { .. } => b't',
        ServerMessage::Empty => b'I',
        ServerMessage::ParseComplete => b'1',
        ServerMessage::BindComplete => b'2',
        ServerMessage::CloseComplete => b'3',
        ServerMessage::NoData => b'n',
        ServerMessage::Suspended => b's',
    }
}

/// The bytes of the body, as far as a `usize` counts.
fn body_len(message: &ServerMessage) -> usize
    ensures { result ≡ min (length (body_of message.now)) (2 ^ 64 - 1) }
{
    match message {
        ServerMessage::AuthOk => 4,
        ServerMessage::AuthSasl => 19,
        ServerMessage::AuthContinue { body } | ServerMessage::AuthFinal { body } => {
            body.len().saturating_add(4)
        }
        ServerMessage::ParameterStatus { name, value } => {
            name.len().saturating_add(value.len()).saturating_add(2)
        }
        ServerMessage::BackendKey { .. } => 8,
        ServerMessage::Ready { .. } => 1,
        ServerMessage::RowDescription { fields } => {
            entries_len(fields.as_slice()).saturating_add(2)
        }
        ServerMessage::DataRow { values } => entries_len(values.as_slice()).saturating_add(2),
        ServerMessage::Complete { tag } => tag.len().saturating_add(1),
        ServerMessage::Error { parts } | ServerMessage::Notice { parts } => {
            entries_len(parts.as_slice()).saturating_add(1)
        }
        ServerMessage::ParameterDescription { kinds } => {
            entries_len(kinds.as_slice()).saturating_add(2)
        }
        ServerMessage::Empty
        | ServerMessage::ParseComplete
        | ServerMessage::BindComplete
        | ServerMessage::CloseComplete
        | ServerMessage::NoData
        | ServerMessage::Suspended => 0,
    }
}

fn put_body(message: &ServerMessage, onto: &mut List<u8>) -> Result<(), NoMemory>
    requires { Fits message.now }
    ensures put { OnOk result (onto.new ≡ onto.old ++ body_of message.now) }
    ensures in_range { OnOk result (InRange message.now) }
    ensures kept { OnErr result (Keeps onto.old onto.new) }
{
    match message {
        ServerMessage::AuthOk => 0u32.put(onto),
        ServerMessage::AuthSasl => {
            10u32.put(onto)?;
            put_bytes(SASL_NAMES, onto)
        }
        ServerMessage::AuthContinue { body } => {
            11u32.put(onto)?;
            put_bytes(body.as_slice(), onto)
        }
        ServerMessage::AuthFinal { body } => {
            12u32.put(onto)?;
            put_bytes(body.as_slice(), onto)
        }
        ServerMessage::ParameterStatus { name, value } => {
            put_string(name.as_slice(), onto)?;
            put_string(value.as_slice(), onto)
        }
        ServerMessage::BackendKey { process, secret } => {
            process.put(onto)?;
            secret.put(onto)
        }
        ServerMessage::Ready { status } => onto.push(*status),
        ServerMessage::RowDescription { fields } => put_counted(fields.as_slice(), onto),
        ServerMessage::DataRow { values } => put_counted(values.as_slice(), onto),
        ServerMessage::Complete { tag } => put_string(tag.as_slice(), onto),
        ServerMessage::Error { parts } | ServerMessage::Notice { parts } => {
            put_zero_ended(parts.as_slice(), onto)
        }
        ServerMessage::ParameterDescription { kinds } => put_counted(kinds.as_slice(), onto),
        ServerMessage::Empty
        | ServerMessage::ParseComplete
        | ServerMessage::BindComplete
        | ServerMessage::CloseComplete
        | ServerMessage::NoData
        | ServerMessage::Suspended => Ok(()),
    }
}

fn put_message(message: &ServerMessage, onto: &mut List<u8>) -> Result<(), NoMemory>
    requires { Fits message.now }
    ensures put { OnOk result (onto.new ≡ onto.old ++ spelling message.now) }
    ensures in_range { OnOk result (InRange message.now) }
    ensures kept { OnErr result (Keeps onto.old onto.new) }
{
    put_head(tag_of(message), body_len(message), onto)?;
    put_body(message, onto)
}

/// Appends the one spelling of a message.
///
/// Source: PostgreSQL, Frontend/Backend Protocol, "Message Formats".
pub fn write_server(message: &ServerMessage, onto: &mut List<u8>) -> Result<(), NoMemory>
    requires { Fits message.now }
    ensures spelled { OnOk result (onto.new ≡ onto.old ++ spelling message.now) }
    // What was appended is read again as the same message, whatever follows it.
    ensures again { OnOk result ((rest : Sequence ℕ)
        → server_front (spelling message.now ++ rest) ≡ Whole message.now (length (spelling
        message.now))) }
    ensures kept { OnErr result (onto.new ≡ onto.old) }
{
    let before = onto.len();
    let written = put_message(message, onto);
    if written.is_err() {
        onto.truncate(before);
    }
    written
}

fn is_clean(message: &ServerMessage) -> bool
    ensures { IsTrue result ↔ IsClean message.now }
{
    match message {
        ServerMessage::ParameterStatus { name, value } => {
            is_string(name.as_slice()) && is_string(value.as_slice())
        }
        ServerMessage::Ready { status } => matches!(*status, b'I' | b'T' | b'E'),
        ServerMessage::RowDescription { fields } => {
            is_countable(fields.as_slice()) && are_fields(fields.as_slice())
        }
        ServerMessage::DataRow { values } => is_countable(values.as_slice()),
        ServerMessage::Complete { tag } => is_string(tag.as_slice()),
        ServerMessage::Error { parts } | ServerMessage::Notice { parts } => {
            are_parts(parts.as_slice())
        }
        ServerMessage::ParameterDescription { kinds } => is_countable(kinds.as_slice()),
        ServerMessage::AuthOk
        | ServerMessage::AuthSasl
        | ServerMessage::AuthContinue { .. }
        | ServerMessage::AuthFinal { .. }
        | ServerMessage::BackendKey { .. }
        | ServerMessage::Empty
        | ServerMessage::ParseComplete
        | ServerMessage::BindComplete
        | ServerMessage::CloseComplete
        | ServerMessage::NoData
        | ServerMessage::Suspended => true,
    }
}

fn has_few_parts(message: &ServerMessage) -> bool
    ensures { IsTrue result ↔ HasFewParts message.now }
{
    match message {
        ServerMessage::Error { parts } | ServerMessage::Notice { parts } => {
            is_countable(parts.as_slice())
        }
        _ => true,
    }
}

/// Whether a message can be written.
pub fn server_fits(message: &ServerMessage) -> bool
    ensures { IsTrue result ↔ Fits message.now }
{
    is_clean(message) && has_few_parts(message) && body_len(message) <= 1_048_572
}
