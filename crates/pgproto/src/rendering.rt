//! Messages of a server as lines of a transcript.
ghost use Rattle.std.specs.Prelude.{◌≡◌, ◌++◌, ◌∷◌, OnOk, ◌<◌, IfOk, Some, [], List, codes, string_bytes};
ghost use Rattle.std.specs.List.{flat_map};
ghost use Rattle.std.specs.Fmt.{decimal, signed_decimal};
ghost use Rattle.pgproto.specs.Rendering.{column_form, fault_form, fields_of, form_of, has_fields, in_quotes, listed, name_of, part_text, rendered, shown, shown_byte, value_form};
ghost use Rattle.pgproto.specs.Spelling.{digit, two_digits};

use pg_messages::{Field, Part, ServerMessage};
use pool_base::{List, NoMemory, SessionId, Text};
use std::alloc::{AllocError, Global};
use std::fmt::Write;

/// Most lines are no longer than this. There is room for them at once.
const LINE_SIZE: usize = 64;

/// The line of a message to a session, with its LF.
///
/// Shape: `n <= BE ` and the message's form, as `1 <= BE CommandComplete ("INSERT 0 1")`. In
/// quotes,
/// bytes 32 to 126 stand for themselves, `"` and `\` behind a `\`, every other byte as `\x` and two
/// hexadecimal digits. An error shows its severity, its code and, in quotes, its text; a part that
/// the
/// message does not have is empty, and of two with one tag the first is shown.
pub fn render(alloc: Global, s: SessionId, message: &ServerMessage) -> Result<Text, NoMemory>
    ensures { IfOk result (λ text. text ≡ rendered s.number message.now ++ 10 ∷ []) }
{
    let mut line = String::with_capacity(alloc, LINE_SIZE)?;
    push_number(s.number, &mut line)?;
    line.push_str(" <= BE ")?;
    push_form(message, &mut line)?;
    line.push_str("\n")?;
    Ok(Text::from_string(line))
}

#[tactic(auto, unfolding(crate::specs::Rendering::form_of))]
fn push_form(message: &ServerMessage, onto: &mut String) -> Result<(), AllocError>
    ensures { OnOk result (string_bytes onto.new ≡ string_bytes onto.old ++ form_of message.now) }
{
    onto.push_str(name_of(message))?;
    if !has_fields(message) {
        return Ok(());
    }
    onto.push_str(" (")?;
    push_fields(message, onto)?;
    onto.push_str(")")?;
    Ok(())
}

/// The name of a message in a transcript.
fn name_of(message: &ServerMessage) -> &'static str
    ensures { result.now ≡ name_of message.now }
{
    match message {
        ServerMessage::AuthOk => "AuthenticationOk",
        ServerMessage::AuthSasl => "AuthenticationSASL",
        ServerMessage::AuthContinue { .. } => "AuthenticationSASLContinue",
        ServerMessage::AuthFinal { .. } => "AuthenticationSASLFinal",
        ServerMessage::ParameterStatus { .. } => "ParameterStatus",
        ServerMessage::BackendKey { .. } => "BackendKeyData",
        ServerMessage::Ready { .. } => "ReadyForQuery",
        ServerMessage::RowDescription { .. } => "RowDescription",
        ServerMessage::DataRow { .. } => "DataRow",
        ServerMessage::Complete { .. } => "CommandComplete",
        ServerMessage::Error { .. } => "ErrorResponse",
        ServerMessage::Notice { .. } => "NoticeResponse",
        ServerMessage::ParameterDescription { .. } => "ParameterDescription",
        ServerMessage::Empty => "EmptyQueryResponse",
        ServerMessage::ParseComplete => "ParseComplete",
        ServerMessage::BindComplete => "BindComplete",
        ServerMessage::CloseComplete => "CloseComplete",
        ServerMessage::NoData => "NoData",
        ServerMessage::Suspended => "PortalSuspended",
    }
}

/// Whether a message has fields, which stand in parentheses.
fn has_fields(message: &ServerMessage) -> bool
    ensures { result ≡ has_fields message.now }
{
    !matches!(
        message,
        ServerMessage::AuthOk
            | ServerMessage::AuthSasl
            | ServerMessage::AuthContinue { .. }
            | ServerMessage::AuthFinal { .. }
            | ServerMessage::Empty
            | ServerMessage::ParseComplete
            | ServerMessage::BindComplete
            | ServerMessage::CloseComplete
            | ServerMessage::NoData
            | ServerMessage::Suspended
    )
}

fn push_fields(message: &ServerMessage, onto: &mut String) -> Result<(), AllocError>
    ensures { OnOk result (string_bytes onto.new ≡ string_bytes onto.old ++ fields_of message.now) }
{
    match message {
        ServerMessage::ParameterStatus { name, value } => push_setting(name, value, onto),
        ServerMessage::BackendKey { process, secret } => push_key(*process, *secret, onto),
        ServerMessage::Ready { status } => push_shown_byte(*status, onto),
        ServerMessage::RowDescription { fields } => push_columns(fields.as_slice(), onto),
        ServerMessage::DataRow { values } => push_values(values.as_slice(), onto),
        ServerMessage::Complete { tag } => push_quoted(tag.as_slice(), onto),
        ServerMessage::Error { parts } | ServerMessage::Notice { parts } => {
            push_fault(parts.as_slice(), onto)
        }
        ServerMessage::ParameterDescription { kinds } => push_kinds(kinds.as_slice(), onto),
        ServerMessage::AuthOk
        | ServerMessage::AuthSasl
        | ServerMessage::AuthContinue { .. }
        | ServerMessage::AuthFinal { .. }
        | ServerMessage::Empty
        | ServerMessage::ParseComplete
        | ServerMessage::BindComplete
        | ServerMessage::CloseComplete
        | ServerMessage::NoData
        | ServerMessage::Suspended => Ok(()),
    }
}

fn push_setting(name: &List<u8>, value: &List<u8>, onto: &mut String) -> Result<(), AllocError>
    ensures { OnOk result (string_bytes onto.new ≡ string_bytes onto.old ++ (in_quotes name.now ++
        (32 ∷ in_quotes value.now))) }
{
    push_quoted(name.as_slice(), onto)?;
    onto.push_str(" ")?;
    push_quoted(value.as_slice(), onto)?;
    Ok(())
}

fn push_key(process: i32, secret: i32, onto: &mut String) -> Result<(), AllocError>
    ensures { OnOk result (string_bytes onto.new ≡ string_bytes onto.old ++ (signed_decimal process
        ++ (32 ∷ signed_decimal secret))) }
{
    push_signed(process, onto)?;
    onto.push_str(" ")?;
    push_signed(secret, onto)?;
    Ok(())
}

fn push_columns(fields: &[Field], onto: &mut String) -> Result<(), AllocError>
    ensures { OnOk result (string_bytes onto.new ≡ string_bytes onto.old ++ listed (codes ", ")
        column_form fields.now) }
{
    let Some((first, others)) = fields.split_first() else {
        return Ok(());
    };
    push_column(first, onto)?;
    for field in others {
        onto.push_str(", ")?;
        push_column(field, onto)?;
    }
    Ok(())
}

fn push_column(field: &Field, onto: &mut String) -> Result<(), AllocError>
    ensures { OnOk result (string_bytes onto.new ≡ string_bytes onto.old ++ column_form field.now) }
{
    push_quoted(field.name.as_slice(), onto)?;
    onto.push_str(" ")?;
    push_number(field.kind, onto)?;
    onto.push_str(" ")?;
    push_number(u32::from(field.format), onto)?;
    Ok(())
}

fn push_values(values: &[Option<List<u8>>], onto: &mut String) -> Result<(), AllocError>
    ensures { OnOk result (string_bytes onto.new ≡ string_bytes onto.old ++ listed (codes ", ")
        value_form values.now) }
{
    let Some((first, others)) = values.split_first() else {
        return Ok(());
    };
    push_value(first, onto)?;
    for value in others {
        onto.push_str(", ")?;
        push_value(value, onto)?;
    }
    Ok(())
}

fn push_value(value: &Option<List<u8>>, onto: &mut String) -> Result<(), AllocError>
    ensures { OnOk result (string_bytes onto.new ≡ string_bytes onto.old ++ value_form value.now) }
{
    match value {
        None => onto.push_str("null"),
        Some(bytes) => push_quoted(bytes.as_slice(), onto),
    }
}

fn push_fault(parts: &[Part], onto: &mut String) -> Result<(), AllocError>
    ensures { OnOk result (string_bytes onto.new ≡ string_bytes onto.old ++ fault_form parts.now) }
{
    push_shown(text_of_part(b'S', parts), onto)?;
    onto.push_str(" ")?;
    push_shown(text_of_part(b'C', parts), onto)?;
    onto.push_str(" ")?;
    push_quoted(text_of_part(b'M', parts), onto)?;
    Ok(())
}

/// The text of the first part with that tag, empty where there is none.
fn text_of_part(tag: u8, parts: &[Part]) -> &[u8]
    ensures { result.now ≡ part_text tag parts.now }
{
    for part in parts {
        if part.tag == tag {
            return part.text.as_slice();
        }
    }
    b""
}

fn push_kinds(kinds: &[u32], onto: &mut String) -> Result<(), AllocError>
    ensures { OnOk result (string_bytes onto.new ≡ string_bytes onto.old ++ listed (codes " ")
        decimal kinds.now) }
{
    let Some((first, others)) = kinds.split_first() else {
        return Ok(());
    };
    push_number(*first, onto)?;
    for kind in others {
        onto.push_str(" ")?;
        push_number(*kind, onto)?;
    }
    Ok(())
}

/// Bytes as they are shown, in double quotes.
fn push_quoted(text: &[u8], onto: &mut String) -> Result<(), AllocError>
    ensures { OnOk result (string_bytes onto.new ≡ string_bytes onto.old ++ in_quotes text.now) }
{
    onto.push_str("\"")?;
    push_shown(text, onto)?;
    onto.push_str("\"")
}

fn push_shown(text: &[u8], onto: &mut String) -> Result<(), AllocError>
    ensures { OnOk result (string_bytes onto.new ≡ string_bytes onto.old ++ shown text.now) }
{
    for byte in text {
        push_shown_byte(*byte, onto)?;
    }
    Ok(())
}

fn push_shown_byte(byte: u8, onto: &mut String) -> Result<(), AllocError>
    ensures { OnOk result (string_bytes onto.new ≡ string_bytes onto.old ++ shown_byte byte) }
{
    if byte < 32 || 126 < byte {
        onto.push_str("\\x")?;
        push_two_digits(byte, onto)
    } else if byte == b'"' || byte == b'\\' {
        onto.push_str("\\")?;
        onto.push(char::from(byte))
    } else {
        onto.push(char::from(byte))
    }
}

fn push_two_digits(byte: u8, onto: &mut String) -> Result<(), AllocError>
    ensures { OnOk result (string_bytes onto.new ≡ string_bytes onto.old ++ two_digits byte) }
{
    onto.push(digit(byte / 16))?;
    onto.push(digit(byte % 16))
}

/// A hexadecimal digit in lower case.
fn digit(n: u8) -> char
    requires { n < 16 }
    ensures is { result ≡ digit n }
    ensures ascii { result < 128 }
{
    char::from(if n < 10 { b'0' + n } else { b'a' + (n - 10) })
}

fn push_number(n: u32, onto: &mut String) -> Result<(), AllocError>
    ensures { OnOk result (string_bytes onto.new ≡ string_bytes onto.old ++ decimal n) }
{
    write!(onto, "{n}")
}

fn push_signed(n: i32, onto: &mut String) -> Result<(), AllocError>
    ensures { OnOk result (string_bytes onto.new ≡ string_bytes onto.old ++ signed_decimal n) }
{
    write!(onto, "{n}")
}
