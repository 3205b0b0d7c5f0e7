//! The server's side of one session: a message's bytes in, the bytes of the replies out.
ghost use Rattle.std.specs.Prelude.{◌≡◌, ◌<◌, ◌^◌, ◌++◌, ◌∷◌, [], ℕ, List, option_map, pos, true, false, IfOk, OnOk, length};
ghost use Rattle.pg_messages.specs.Server.{Fits};
ghost use Rattle.pg_messages.specs.declared.client.ClientMessage.TheVariants as sent;
ghost use Rattle.pg_messages.specs.declared.server.ServerMessage.TheVariants as messages;
ghost use Rattle.std.specs.List.{list_all};
ghost use Rattle.pg_messages.specs.declared.server.ServerMessage.{ServerMessage};
ghost use Rattle.schema.specs.Allowed.{AreAllowed};
ghost use Rattle.backend_trait.specs.Typed.{has_columns};
ghost use Rattle.backend_trait.specs.Runnable.{is_of_run};
ghost use Rattle.play.specs.Replies.{Sent, AreAnswers, AreReplies, AreRows, rows_left_by, settings, start_up, error_message};
ghost use Rattle.play.specs.Answering.{AreNamed, IsAnswered, IsReady, IsShort};
ghost use Rattle.play.specs.Told.{asked_of};
ghost use Rattle.play.specs.Opening.{HoldsStart, HoldsClient, is_start, query_in, is_label};

use crate::asked::{Asked, asked_by};
use crate::codes::text_of_code;
use crate::database::Database;
use crate::replies::{error_message, row_description, row_message, setting, written};
use backend_trait::{Answer, Catalogue, Checked, Row};
use pg_messages::{
    ClientMessage, Read, ServerMessage, StartMessage, read_client, read_start, write_server,
};
use pool_base::{Code, List, NoMemory, SessionId};
use std::alloc::Global;

/// The status of a session without a transaction.
const IDLE: u8 = b'I';

/// Reads the first message of a connection, and lets the client in. Says whether it is connected.
pub(crate) fn connect(
    alloc: Global,
    session: SessionId,
    input: &[u8],
    output: &mut List<u8>,
) -> Result<bool, NoMemory>
    ensures { IfOk result (λ online. HoldsStart input.now → (online ≡ true)
        × Sent output.old output.new (start_up session.number)) }
{
    let read = read_start(alloc, input)?;
    if !is_start(&read) {
        return Ok(false);
    }
    send_start_up(alloc, session, output)?;
    Ok(true)
}

/// Whether a start message of version 3.0 was read.
fn is_start(read: &Read<StartMessage>) -> bool
    ensures { result ≡ is_start read.now }
{
    match read {
        Read::Whole {
            message: StartMessage::Start { minor, .. },
            ..
        } => *minor == 0,
        Read::Whole { .. } | Read::More | Read::Bad { .. } | Read::TooLong { .. } => false,
    }
}

/// Reads a message of the client, and does what it asks at a moment. Says whether the client stays
/// connected.
pub(crate) fn serve<S: Database>(
    alloc: Global,
    catalogue: &Catalogue,
    moment: i64,
    input: &[u8],
    database: &mut S,
    output: &mut List<u8>,
) -> Result<bool, NoMemory>
    requires allowed { AreAllowed catalogue.now }
    requires tables { S.tables database.old ≡ catalogue.now }
    requires ready { S.is_ready database.old }
    ensures query { IfOk result (λ online. (text : List ℕ) → HoldsClient input.now (sent.Query text)
        → (online ≡ true) × IsAnswered catalogue.now (S.rows database.old) moment text output.old
        output.new (S.rows database.new)) }
    ensures terminate { IfOk result (λ online. HoldsClient input.now sent.Terminate
        → (online ≡ false) × (S.rows database.new ≡ S.rows database.old)) }
    ensures tables { OnOk result (S.tables database.new ≡ S.tables database.old) }
    ensures copies { OnOk result (S.copies database.new ≡ S.copies database.old) }
    ensures ready { OnOk result (S.is_ready database.new) }
{
    let read = read_client(alloc, input)?;
    match query_in(&read) {
        Some(text) => {
            let online = answer_query(alloc, catalogue, moment, text, database, output);
            drop(read);
            online
        }
        None => {
            drop(read);
            Ok(false)
        }
    }
}

/// The text of the Query that was read, if it is one.
fn query_in(read: &Read<ClientMessage>) -> Option<&[u8]>
    ensures { option_map (λ text. text.now) result ≡ query_in read.now }
{
    match read {
        Read::Whole {
            message: ClientMessage::Query { text },
            ..
        } => Some(text.as_slice()),
        Read::Whole { .. } | Read::More | Read::Bad { .. } | Read::TooLong { .. } => None,
    }
}

/// Does what a Query's text asks for at a moment, and answers.
fn answer_query<S: Database>(
    alloc: Global,
    catalogue: &Catalogue,
    moment: i64,
    text: &[u8],
    database: &mut S,
    output: &mut List<u8>,
) -> Result<bool, NoMemory>
    requires allowed { AreAllowed catalogue.now }
    requires short { length text.now < 2 ^ 32 }
    requires tables { S.tables database.old ≡ catalogue.now }
    requires ready { S.is_ready database.old }
    ensures online { IfOk result (λ online. online ≡ true) }
    ensures query { OnOk result (IsAnswered catalogue.now (S.rows database.old) moment text.now
        output.old output.new (S.rows database.new)) }
    ensures tables { OnOk result (S.tables database.new ≡ S.tables database.old) }
    ensures copies { OnOk result (S.copies database.new ≡ S.copies database.old) }
    ensures ready { OnOk result (S.is_ready database.new) }
{
    let asked = asked_by(alloc, catalogue, moment, text)?;
    let online = answer_fully(alloc, &asked, database, output);
    drop(asked);
    online
}

/// Does what was asked for, and sends what it gives and that the session is idle again.
fn answer_fully<S: Database>(
    alloc: Global,
    asked: &Asked,
    database: &mut S,
    output: &mut List<u8>,
) -> Result<bool, NoMemory>
    requires asked { IsReady (S.tables database.old) (asked_of asked.now) }
    requires ready { S.is_ready database.old }
    ensures online { IfOk result (λ online. online ≡ true) }
    ensures replies { OnOk result ((all : List ServerMessage)
        × AreReplies (S.tables database.old) (S.rows database.old) (asked_of asked.now) all
        × Sent output.old output.new all) }
    ensures rows { OnOk result (S.rows database.new ≡ rows_left_by (S.tables database.old)
        (S.rows database.old) (asked_of asked.now)) }
    ensures tables { OnOk result (S.tables database.new ≡ S.tables database.old) }
    ensures copies { OnOk result (S.copies database.new ≡ S.copies database.old) }
    ensures ready { OnOk result (S.is_ready database.new) }
{
    answer_asked(alloc, asked, database, output)?;
    send(ServerMessage::Ready { status: IDLE }, output)?;
    Ok(true)
}

/// Does what was asked for, and sends what it gives.
#[tactic(auto, unfolding(crate::specs::Replies::rows_left_by))]
fn answer_asked<S: Database>(
    alloc: Global,
    asked: &Asked,
    database: &mut S,
    output: &mut List<u8>,
) -> Result<(), NoMemory>
    requires asked { IsReady (S.tables database.old) (asked_of asked.now) }
    requires ready { S.is_ready database.old }
    // All that is sent, but that the session is idle again.
    ensures replies { OnOk result ((all : List ServerMessage)
        × AreReplies (S.tables database.old) (S.rows database.old) (asked_of asked.now)
        (all ++ messages.Ready 73 ∷ []) × Sent output.old output.new all) }
    ensures rows { OnOk result (S.rows database.new ≡ rows_left_by (S.tables database.old)
        (S.rows database.old) (asked_of asked.now)) }
    ensures tables { OnOk result (S.tables database.new ≡ S.tables database.old) }
    ensures copies { OnOk result (S.copies database.new ≡ S.copies database.old) }
    ensures ready { OnOk result (S.is_ready database.new) }
{
    match asked {
        Asked::Nothing => send(ServerMessage::Empty, output),
        Asked::Refused { code, message } => send_error(alloc, *code, message.as_bytes(), output),
        Asked::Runs(statement) => {
            let answer = database.run(statement)?;
            send_answer(alloc, statement, answer, output)
        }
    }
}

/// Sends the messages that let a client in.
fn send_start_up(alloc: Global, session: SessionId, output: &mut List<u8>) -> Result<(), NoMemory>
    ensures { OnOk result (Sent output.old output.new (start_up session.number)) }
{
    send(ServerMessage::AuthOk, output)?;
    send_settings(alloc, output)?;
    send_key(session, output)?;
    send(ServerMessage::Ready { status: IDLE }, output)?;
    Ok(())
}

fn send_settings(alloc: Global, output: &mut List<u8>) -> Result<(), NoMemory>
    ensures { OnOk result (Sent output.old output.new settings) }
{
    send_setting(alloc, b"client_encoding", b"UTF8", output)?;
    send_setting(alloc, b"DateStyle", b"ISO, MDY", output)?;
    send_setting(alloc, b"integer_datetimes", b"on", output)?;
    send_setting(alloc, b"server_encoding", b"UTF8", output)?;
    send_setting(alloc, b"server_version", b"14.0", output)?;
    send_setting(alloc, b"standard_conforming_strings", b"on", output)?;
    send_setting(alloc, b"TimeZone", b"UTC", output)?;
    Ok(())
}

/// Sends the key of a session: its number, and no secret.
fn send_key(session: SessionId, output: &mut List<u8>) -> Result<(), NoMemory>
    ensures { OnOk result (Sent output.old output.new (messages.BackendKey (pos session.number)
        (pos 0) ∷ [])) }
{
    let process = session.number as i32;
    send(ServerMessage::BackendKey { process, secret: 0 }, output)?;
    Ok(())
}

fn send_setting(
    alloc: Global,
    name: &[u8],
    value: &[u8],
    output: &mut List<u8>,
) -> Result<(), NoMemory>
    requires name { is_label name.now ≡ true }
    requires value { is_label value.now ≡ true }
    ensures { OnOk result (Sent output.old output.new (messages.ParameterStatus name.now value.now
        ∷ [])) }
{
    let message = setting(alloc, name, value)?;
    send(message, output)?;
    Ok(())
}

/// Sends the messages for an answer to a statement.
fn send_answer(
    alloc: Global,
    statement: &Checked,
    answer: Answer,
    output: &mut List<u8>,
) -> Result<(), NoMemory>
    requires form { is_of_run statement.now answer ≡ true }
    requires named { AreNamed statement.now.columns }
    ensures { OnOk result ((messages : List ServerMessage)
        × AreAnswers statement.now answer messages
        × Sent output.old output.new messages) }
{
    match answer {
        Answer::Rows(rows) => send_rows(alloc, statement, rows.as_slice(), output)?,
        Answer::Count(count) => {
            let message = written(alloc, &statement.body, count)?;
            send(message, output)?;
        }
        Answer::Refused(code) => {
            send_error(alloc, code, text_of_code(code).as_bytes(), output)?;
        }
        Answer::Began | Answer::Locked | Answer::Done | Answer::Serial(_) => {}
    }
    Ok(())
}

fn send_rows(
    alloc: Global,
    statement: &Checked,
    rows: &[Row],
    output: &mut List<u8>,
) -> Result<(), NoMemory>
    requires form { list_all (has_columns statement.now.columns) rows.now ≡ true }
    requires named { AreNamed statement.now.columns }
    ensures { OnOk result ((messages : List ServerMessage) × AreRows statement.now rows.now messages
        × Sent output.old output.new messages) }
{
    let description = row_description(alloc, statement.columns.as_slice())?;
    send(description, output)?;
    for row in rows {
        let message = row_message(alloc, row)?;
        send(message, output)?;
    }
    let tag = written(alloc, &statement.body, rows.len() as u64)?;
    send(tag, output)?;
    Ok(())
}

/// Sends an error with this text.
fn send_error(alloc: Global, code: Code, text: &[u8], output: &mut List<u8>) -> Result<(), NoMemory>
    requires { IsShort text.now }
    ensures { OnOk result (Sent output.old output.new (error_message code.bytes text.now ∷ [])) }
{
    let message = error_message(alloc, code, text)?;
    send(message, output)?;
    Ok(())
}

/// Puts a message behind those that are to be sent.
fn send(message: ServerMessage, output: &mut List<u8>) -> Result<(), NoMemory>
    requires { Fits message }
    ensures { OnOk result (Sent output.old output.new (message ∷ [])) }
{
    write_server(&message, output)?;
    Ok(())
}
