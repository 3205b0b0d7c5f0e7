//! A script, played over one session.
ghost use Rattle.std.specs.Prelude.{◌≡◌, ◌≤◌, ◌++◌, ◌∷◌, [], ℕ, ℤ, Bool, List as Sequence, true, false, length, codes, map, IfOk, IfErr, OnOk, OnErr};
ghost use Rattle.std.specs.List.{AllByRecursion};
ghost use Rattle.pg_messages.specs.Fronts.{server_front};
ghost use Rattle.pg_messages.specs.declared.read.Read.TheVariants.{Whole};
ghost use Rattle.pgproto.specs.Line.{line_of};
ghost use Rattle.pgproto.specs.Spelling.{IsOfGrammar, echoed};
ghost use Rattle.play.specs.Opening.{HoldsClient};
ghost use Rattle.pool_base.specs.Outside.{Appends, AppendsFront, Rose};
ghost use Rattle.pg_messages.specs.declared.server.ServerMessage.{ServerMessage};
ghost use Rattle.pg_messages.specs.declared.client.ClientMessage.TheVariants as sent;
ghost use Rattle.pg_messages.specs.Client.{Fits};
ghost use Rattle.play.specs.declared.play_fault.PlayFault.TheVariants as faults;
ghost use Rattle.schema.specs.Allowed.{AreAllowed};
ghost use Rattle.play.specs.Replies.{AreReadAgain, spelled_all, start_up};
ghost use Rattle.play.specs.Script.{IsMomentOf, IsPlayed, IsSession};
ghost use Rattle.play.specs.Transcript.{ArePlayed, ArePlayedInPart, shown_connect, shown_leave, ended, reply_line, lines_of, closing};
ghost use Rattle.play.specs.Showing.{scene_of, IsShownOf, IsShownInPart, IsQueryShown, IsQueryShownInPart};

use crate::database::Database;
use crate::play_fault::PlayFault;
use crate::script::{Step, moment_of, step_of};
use crate::session::{connect, serve};
use backend_trait::Catalogue;
use pg_messages::{ClientMessage, Read, ServerMessage, read_server, write_client};
use pgproto::{ScriptLine, echo, render};
use pool_base::{List, NoMemory, SessionId, Sink, write_all};
use std::alloc::Global;

/// The session of the script.
const SESSION: SessionId = SessionId { number: 1 };

/// The first message of the session: version 3.0, user `pool`, database `pool`.
const START: [u8; 33] = [
    0, 0, 0, 33, 0, 3, 0, 0, b'u', b's', b'e', b'r', 0, b'p', b'o', b'o', b'l', 0, b'd', b'a',
    b't', b'a', b'b', b'a', b's', b'e', 0, b'p', b'o', b'o', b'l', 0, 0,
];

/// Most replies to a message are no longer than this. There is room for them at once.
const REPLIES_SIZE: usize = 256;

/// A message has no more bytes than this beside its text.
const HEAD_SIZE: usize = 8;

/// What stands before a line: whether the session is connected, and the moment.
///
/// Units: the moment is in microseconds since 2000-01-01 00:00 UTC.
#[derive(Clone, Copy, Debug)]
struct Scene {
    online: bool,
    moment: i64,
}

/// Plays a script over the tables of a catalogue: what is written is its transcript.
pub fn play<D: Database, O: Sink>(
    alloc: Global,
    catalogue: &Catalogue,
    script: &[ScriptLine],
    database: &mut D,
    out: &mut O,
) -> Result<(), PlayFault>
    requires grammar { AllByRecursion IsOfGrammar (map line_of script.now) }
    requires played { IsSession (map line_of script.now) }
    requires allowed { AreAllowed catalogue.now }
    requires tables { D.tables database.old ≡ catalogue.now }
    requires ready { D.is_ready database.old }
    // Its whole transcript, and the rows that it leaves.
    ensures all { OnOk result (ArePlayed catalogue.now (map line_of script.now)
        (D.rows database.old) (O.taken out.old) (O.taken out.new) (D.rows database.new)) }
    ensures tables { OnOk result (D.tables database.new ≡ D.tables database.old) }
    ensures copies { OnOk result (D.copies database.new ≡ D.copies database.old) }
    ensures ready { OnOk result (D.is_ready database.new) }

    // After a fault a front of it was written.
    ensures front { OnErr result (ArePlayedInPart catalogue.now (map line_of script.now)
        (D.rows database.old) (O.taken out.old) (O.taken out.new)) }
    ensures cause { IfErr result (λ e. e ≡ faults.SinkFailed
        → Rose (O.fault_count out.old) (O.fault_count out.new)) }
    ensures later { O.fault_count out.old ≤ O.fault_count out.new }
{
    let mut scene = Scene {
        online: false,
        moment: 0,
    };
    for line in script {
        put_echo(alloc, line, out)?;
        scene = show(alloc, catalogue, scene, line, database, out)?;
    }
    close(scene.online, out)?;
    Ok(())
}

/// Does what a line asks, and writes what stands behind its echo.
fn show<D: Database, O: Sink>(
    alloc: Global,
    catalogue: &Catalogue,
    scene: Scene,
    line: &ScriptLine,
    database: &mut D,
    out: &mut O,
) -> Result<Scene, PlayFault>
    requires grammar { IsOfGrammar (line_of line.now) }
    requires played { IsPlayed (line_of line.now) }
    requires allowed { AreAllowed catalogue.now }
    requires tables { D.tables database.old ≡ catalogue.now }
    requires ready { D.is_ready database.old }
    ensures all { IfOk result (λ after. IsShownOf catalogue.now
        (scene_of (D.rows database.old) scene) (line_of line.now) (O.taken out.old)
        (O.taken out.new) (scene_of (D.rows database.new) after)) }
    ensures tables { OnOk result (D.tables database.new ≡ D.tables database.old) }
    ensures copies { OnOk result (D.copies database.new ≡ D.copies database.old) }
    ensures ready { OnOk result (D.is_ready database.new) }
    ensures front { OnErr result (IsShownInPart catalogue.now
        (scene_of (D.rows database.old) scene) (line_of line.now) (O.taken out.old)
        (O.taken out.new)) }
    ensures cause { IfErr result (λ e. e ≡ faults.SinkFailed
        → Rose (O.fault_count out.old) (O.fault_count out.new)) }
    ensures later { O.fault_count out.old ≤ O.fault_count out.new }
{
    match step_of(line) {
        Step::Set(text) => Ok(Scene {
            online: scene.online,
            moment: moment_set(alloc, text),
        }),
        Step::Connect => Ok(Scene {
            online: start(alloc, scene.online, out)?,
            moment: scene.moment,
        }),
        Step::Ask(text) => Ok(Scene {
            online: ask(alloc, catalogue, scene, text, database, out)?,
            moment: scene.moment,
        }),
        Step::Leave => Ok(Scene {
            online: leave(alloc, catalogue, scene, database, out)?,
            moment: scene.moment,
        }),
        Step::Other => unreachable!(),
    }
}

/// The moment of a text that is one.
fn moment_set(alloc: Global, text: &[u8]) -> i64
    requires { (micros : ℤ) × IsMomentOf text.now micros }
    ensures { IsMomentOf text.now result }
{
    match moment_of(alloc, text) {
        Some(moment) => moment,
        None => unreachable!(),
    }
}

/// Writes a script line as the transcript has it.
fn put_echo<O: Sink>(alloc: Global, line: &ScriptLine, out: &mut O) -> Result<(), PlayFault>
    requires { IsOfGrammar (line_of line.now) }
    ensures all { OnOk result (Appends (O.taken out.old) (O.taken out.new)
        (ended (echoed (line_of line.now)))) }
    ensures front { OnErr result (AppendsFront (O.taken out.old) (O.taken out.new)
        (ended (echoed (line_of line.now)))) }
    ensures cause { IfErr result (λ e. e ≡ faults.SinkFailed
        → Rose (O.fault_count out.old) (O.fault_count out.new)) }
    ensures later { O.fault_count out.old ≤ O.fault_count out.new }
{
    let text = echo(alloc, line)?;
    say(out, text.as_bytes())
}

/// Writes a part of the transcript.
fn say<O: Sink>(out: &mut O, bytes: &[u8]) -> Result<(), PlayFault>
    ensures all { OnOk result (Appends (O.taken out.old) (O.taken out.new) bytes.now) }
    ensures front { OnErr result (AppendsFront (O.taken out.old) (O.taken out.new) bytes.now) }
    ensures cause { OnErr result (Rose (O.fault_count out.old) (O.fault_count out.new)) }
    ensures later { O.fault_count out.old ≤ O.fault_count out.new }
{
    write_all(out, bytes)?;
    Ok(())
}

/// The session connects, unless it is connected.
fn start<O: Sink>(alloc: Global, online: bool, out: &mut O) -> Result<bool, PlayFault>
    ensures online { IfOk result (λ after. after ≡ true) }
    ensures all { OnOk result (Appends (O.taken out.old) (O.taken out.new) (shown_connect online)) }
    ensures front { OnErr result (AppendsFront (O.taken out.old) (O.taken out.new) (shown_connect
        online)) }
    ensures cause { IfErr result (λ e. e ≡ faults.SinkFailed
        → Rose (O.fault_count out.old) (O.fault_count out.new)) }
    ensures later { O.fault_count out.old ≤ O.fault_count out.new }
{
    if online {
        say(out, b"1 busy\n")?;
        return Ok(true);
    }
    let mut output = List::new(alloc);
    let connected = connect(alloc, SESSION, &START, &mut output)?;
    put_replies(alloc, output.as_slice(), out)?;
    Ok(connected)
}

/// The session sends a Query.
fn ask<D: Database, O: Sink>(
    alloc: Global,
    catalogue: &Catalogue,
    scene: Scene,
    text: &[u8],
    database: &mut D,
    out: &mut O,
) -> Result<bool, PlayFault>
    requires query { Fits (sent.Query text.now) }
    requires allowed { AreAllowed catalogue.now }
    requires tables { D.tables database.old ≡ catalogue.now }
    requires ready { D.is_ready database.old }
    ensures online { IfOk result (λ after. after ≡ scene.online) }
    ensures all { OnOk result (IsQueryShown scene.online catalogue.now (D.rows database.old)
        scene.moment text.now (O.taken out.old) (O.taken out.new) (D.rows database.new)) }
    ensures tables { OnOk result (D.tables database.new ≡ D.tables database.old) }
    ensures copies { OnOk result (D.copies database.new ≡ D.copies database.old) }
    ensures ready { OnOk result (D.is_ready database.new) }
    ensures front { OnErr result (IsQueryShownInPart scene.online catalogue.now
        (D.rows database.old) scene.moment text.now (O.taken out.old) (O.taken out.new)) }
    ensures cause { IfErr result (λ e. e ≡ faults.SinkFailed
        → Rose (O.fault_count out.old) (O.fault_count out.new)) }
    ensures later { O.fault_count out.old ≤ O.fault_count out.new }
{
    if scene.online {
        return query(alloc, catalogue, scene.moment, text, database, out);
    }
    gone(out)
}

/// The session is not connected.
fn gone<O: Sink>(out: &mut O) -> Result<bool, PlayFault>
    ensures online { IfOk result (λ after. after ≡ false) }
    ensures all { OnOk result (Appends (O.taken out.old) (O.taken out.new) (ended
        (codes "1 gone"))) }
    ensures front { OnErr result (AppendsFront (O.taken out.old) (O.taken out.new) (ended
        (codes "1 gone"))) }
    ensures cause { IfErr result (λ e. e ≡ faults.SinkFailed
        → Rose (O.fault_count out.old) (O.fault_count out.new)) }
    ensures later { O.fault_count out.old ≤ O.fault_count out.new }
{
    say(out, b"1 gone\n")?;
    Ok(false)
}

/// The session, which is connected, sends a Query.
fn query<D: Database, O: Sink>(
    alloc: Global,
    catalogue: &Catalogue,
    moment: i64,
    text: &[u8],
    database: &mut D,
    out: &mut O,
) -> Result<bool, PlayFault>
    requires query { Fits (sent.Query text.now) }
    requires allowed { AreAllowed catalogue.now }
    requires tables { D.tables database.old ≡ catalogue.now }
    requires ready { D.is_ready database.old }
    ensures online { IfOk result (λ after. after ≡ true) }
    ensures all { OnOk result (IsQueryShown true catalogue.now (D.rows database.old) moment
        text.now (O.taken out.old) (O.taken out.new) (D.rows database.new)) }
    ensures tables { OnOk result (D.tables database.new ≡ D.tables database.old) }
    ensures copies { OnOk result (D.copies database.new ≡ D.copies database.old) }
    ensures ready { OnOk result (D.is_ready database.new) }
    ensures front { OnErr result (IsQueryShownInPart true catalogue.now (D.rows database.old) moment
        text.now (O.taken out.old) (O.taken out.new)) }
    ensures cause { IfErr result (λ e. e ≡ faults.SinkFailed
        → Rose (O.fault_count out.old) (O.fault_count out.new)) }
    ensures later { O.fault_count out.old ≤ O.fault_count out.new }
{
    let input = query_bytes(alloc, text)?;
    let mut output = with_room(alloc, REPLIES_SIZE)?;
    let bytes = input.as_slice();
    let connected = serve(alloc, catalogue, moment, bytes, database, &mut output)?;
    put_replies(alloc, output.as_slice(), out)?;
    Ok(connected)
}

/// No bytes, with room for so many.
fn with_room(alloc: Global, size: usize) -> Result<List<u8>, NoMemory>
    ensures { IfOk result (λ bytes. bytes ≡ []) }
{
    Ok(List::from_vec(Vec::with_capacity(alloc, size)?))
}

/// The bytes of a Query.
fn query_bytes(alloc: Global, text: &[u8]) -> Result<List<u8>, NoMemory>
    requires { Fits (sent.Query text.now) }
    ensures { IfOk result (λ bytes. HoldsClient bytes (sent.Query text.now)) }
{
    let mut input = with_room(alloc, text.len().saturating_add(HEAD_SIZE))?;
    let text = List::from_slice(alloc, text)?;
    let message = ClientMessage::Query { text };
    let written = write_client(&message, &mut input);
    drop(message);
    written?;
    Ok(input)
}

/// The session says that it leaves.
fn leave<D: Database, O: Sink>(
    alloc: Global,
    catalogue: &Catalogue,
    scene: Scene,
    database: &mut D,
    out: &mut O,
) -> Result<bool, PlayFault>
    requires allowed { AreAllowed catalogue.now }
    requires tables { D.tables database.old ≡ catalogue.now }
    requires ready { D.is_ready database.old }
    ensures online { IfOk result (λ after. after ≡ false) }
    ensures all { OnOk result (Appends (O.taken out.old) (O.taken out.new) (shown_leave
        scene.online)) }
    ensures rows { OnOk result (D.rows database.new ≡ D.rows database.old) }
    ensures tables { OnOk result (D.tables database.new ≡ D.tables database.old) }
    ensures copies { OnOk result (D.copies database.new ≡ D.copies database.old) }
    ensures ready { OnOk result (D.is_ready database.new) }
    ensures front { OnErr result (AppendsFront (O.taken out.old) (O.taken out.new) (shown_leave
        scene.online)) }
    ensures cause { IfErr result (λ e. e ≡ faults.SinkFailed
        → Rose (O.fault_count out.old) (O.fault_count out.new)) }
    ensures later { O.fault_count out.old ≤ O.fault_count out.new }
{
    if scene.online {
        return terminate(alloc, catalogue, scene.moment, database, out);
    }
    gone(out)
}

/// The session, which is connected, says that it leaves.
fn terminate<D: Database, O: Sink>(
    alloc: Global,
    catalogue: &Catalogue,
    moment: i64,
    database: &mut D,
    out: &mut O,
) -> Result<bool, PlayFault>
    requires allowed { AreAllowed catalogue.now }
    requires tables { D.tables database.old ≡ catalogue.now }
    requires ready { D.is_ready database.old }
    ensures online { IfOk result (λ after. after ≡ false) }
    ensures all { OnOk result (Appends (O.taken out.old) (O.taken out.new) (ended
        (codes "1 closed"))) }
    ensures rows { OnOk result (D.rows database.new ≡ D.rows database.old) }
    ensures tables { OnOk result (D.tables database.new ≡ D.tables database.old) }
    ensures copies { OnOk result (D.copies database.new ≡ D.copies database.old) }
    ensures ready { OnOk result (D.is_ready database.new) }
    ensures front { OnErr result (AppendsFront (O.taken out.old) (O.taken out.new) (ended
        (codes "1 closed"))) }
    ensures cause { IfErr result (λ e. e ≡ faults.SinkFailed
        → Rose (O.fault_count out.old) (O.fault_count out.new)) }
    ensures later { O.fault_count out.old ≤ O.fault_count out.new }
{
    let input = terminate_bytes(alloc)?;
    let mut output = List::new(alloc);
    let bytes = input.as_slice();
    let connected = serve(alloc, catalogue, moment, bytes, database, &mut output)?;
    close(!connected, out)?;
    Ok(connected)
}

/// The bytes of a Terminate.
fn terminate_bytes(alloc: Global) -> Result<List<u8>, NoMemory>
    ensures { IfOk result (λ bytes. HoldsClient bytes sent.Terminate) }
{
    let mut input = List::new(alloc);
    write_client(&ClientMessage::Terminate, &mut input)?;
    Ok(input)
}

/// Writes that the session is closed, where it is.
fn close<O: Sink>(closes: bool, out: &mut O) -> Result<(), PlayFault>
    ensures all { OnOk result (Appends (O.taken out.old) (O.taken out.new) (closing closes)) }
    ensures front { OnErr result (AppendsFront (O.taken out.old) (O.taken out.new) (closing
        closes)) }
    ensures cause { OnErr result (Rose (O.fault_count out.old) (O.fault_count out.new)) }
    ensures later { O.fault_count out.old ≤ O.fault_count out.new }
{
    if closes {
        say(out, b"1 closed\n")
    } else {
        Ok(())
    }
}

/// Writes the lines of the messages in these bytes.
fn put_replies<O: Sink>(alloc: Global, bytes: &[u8], out: &mut O) -> Result<(), PlayFault>
    ensures all { OnOk result ((messages : Sequence ServerMessage) → AreReadAgain messages
        → bytes.now ≡ spelled_all messages
        → Appends (O.taken out.old) (O.taken out.new) (lines_of messages)) }
    ensures front { OnErr result ((messages : Sequence ServerMessage) → AreReadAgain messages
        → bytes.now ≡ spelled_all messages
        → AppendsFront (O.taken out.old) (O.taken out.new) (lines_of messages)) }
    ensures cause { IfErr result (λ e. e ≡ faults.SinkFailed
        → Rose (O.fault_count out.old) (O.fault_count out.new)) }
    ensures later { O.fault_count out.old ≤ O.fault_count out.new }
{
    let mut rest = bytes;
    while !rest.is_empty() {
        let length = put_reply(alloc, rest, out)?;
        if length == 0 {
            return Ok(());
        }
        rest = rest.split_at(length).1;
    }
    Ok(())
}

/// Writes the line of the message at the front, and gives its length; 0 where there is no whole
/// message.
fn put_reply<O: Sink>(alloc: Global, bytes: &[u8], out: &mut O) -> Result<usize, PlayFault>
    ensures within { IfOk result (λ n. n ≤ length bytes.now) }
    ensures all { IfOk result (λ n. (m : ServerMessage) (k : ℕ)
        → server_front bytes.now ≡ Whole m k → (n ≡ k)
        × Appends (O.taken out.old) (O.taken out.new) (reply_line m)) }
    ensures front { OnErr result ((m : ServerMessage) (k : ℕ) → server_front bytes.now ≡ Whole m k
        → AppendsFront (O.taken out.old) (O.taken out.new) (reply_line m)) }
    ensures cause { IfErr result (λ e. e ≡ faults.SinkFailed
        → Rose (O.fault_count out.old) (O.fault_count out.new)) }
    ensures later { O.fault_count out.old ≤ O.fault_count out.new }
{
    let read = read_server(alloc, bytes)?;
    match read {
        Read::Whole { message, length } => {
            put_message(alloc, message, out)?;
            Ok(length)
        }
        Read::More | Read::Bad { .. } | Read::TooLong { .. } => Ok(0),
    }
}

fn put_message<O: Sink>(alloc: Global, message: ServerMessage, out: &mut O) -> Result<(), PlayFault>
    ensures all { OnOk result (Appends (O.taken out.old) (O.taken out.new) (reply_line message)) }
    ensures front { OnErr result (AppendsFront (O.taken out.old) (O.taken out.new) (reply_line
        message)) }
    ensures cause { IfErr result (λ e. e ≡ faults.SinkFailed
        → Rose (O.fault_count out.old) (O.fault_count out.new)) }
    ensures later { O.fault_count out.old ≤ O.fault_count out.new }
{
    let line = render(alloc, SESSION, &message)?;
    say(out, line.as_bytes())
}
