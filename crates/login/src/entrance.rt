//! The way of a client to its session, over what gives and takes its bytes.
ghost use Rattle.std.specs.Prelude.{◌≡◌, ◌<◌, ◌≤◌, ◌++◌, Ok, Some, true, false, length, drop, min, IfOk, IfSome, MatchOption, OnOk};
ghost use Rattle.pool_base.specs.Outside.{Appends, Rose};
ghost use Rattle.login.specs.Entrances.{HasCome, HasNoWord, IsAdmitted, IsEntered, IsJudged, IsRefused, Moves, Reaches};
ghost use Rattle.login.specs.declared.entrance.Entrance.TheVariants.{ReadFault, WriteFault};

use crate::candidate::Guard;
use crate::pace::Pace;
use crate::reception::{Reception, Reply};
use crate::refusal::{Refusal, refusal_bytes};
use pool_base::{Got, List, NoMemory, Sink, Source, write_all};
use std::alloc::Global;
use std::mem;

/// What became of a client on its way to its session.
#[derive(Drop)]
pub enum Entrance {
    /// Its session begins. These bytes come first in it: those of its start message, and what has
    /// come behind its password.
    LetIn(List<u8>),
    /// It was told why it is not let in.
    Refused(Refusal),
    /// It has shown a password, and the answer could not be told in its time: too many are tried.
    HeldBack,
    /// It has left, or asked for what ends a connection without a word, or came in too many pieces.
    Gone,
    /// The source failed.
    ReadFault,
    /// The sink failed.
    WriteFault,
}

/// In so many pieces and messages a client comes to its session, or it does not.
const MOST_STEPS: u32 = 8192;

/// How many bytes are read at once.
const PIECE: usize = 4096;

/// Takes that many bytes away, which were heard.
fn pass(alloc: Global, inbox: &mut List<u8>, count: usize) -> Result<(), NoMemory>
    ensures { OnOk result (inbox.new ≡ drop (min count (length inbox.old)) inbox.old) }
{
    let rest = List::from_slice(alloc, rest_of(inbox.as_slice(), count))?;
    drop(mem::replace(inbox, rest));
    Ok(())
}

/// Reads what comes next. The answer is there where nothing does.
fn read_more<I: Source>(source: &mut I, inbox: &mut List<u8>) -> Result<Option<Entrance>, NoMemory>
    ensures comes { IfOk result (λ e. MatchOption e
        (HasCome inbox.old inbox.new (I.left source.old) (I.left source.new))
        (λ e. HasNoWord (I.ended source.new) e)) }
    ensures unread { IfOk result (λ e. IfSome e (λ _. I.left source.new ≡ I.left source.old)) }
    ensures failed { result ≡ Ok (Some ReadFault)
        → Rose (I.fault_count source.old) (I.fault_count source.new) }
    ensures later { I.fault_count source.old ≤ I.fault_count source.new }
{
    let mut piece = [0u8; PIECE];
    match source.read(&mut piece) {
        Got::Bytes(count) => {
            inbox.extend_from_slice(&piece[..count])?;
            Ok(None)
        }
        Got::End => Ok(Some(Entrance::Gone)),
        Got::Failed => Ok(Some(Entrance::ReadFault)),
    }
}

/// Tells the client these bytes. False: the sink has failed.
fn tell<O: Sink>(sink: &mut O, bytes: &[u8]) -> bool
    ensures told { result ≡ true → Appends (O.taken sink.old) (O.taken sink.new) bytes.now }
    ensures failed { result ≡ false → Rose (O.fault_count sink.old) (O.fault_count sink.new) }
    ensures later { O.fault_count sink.old ≤ O.fault_count sink.new }
{
    write_all(sink, bytes).is_ok()
}

/// What stands behind that many bytes.
fn rest_of(inbox: &[u8], count: usize) -> &[u8]
    ensures { result.now ≡ drop (min count (length inbox.now)) inbox.now }
{
    &inbox[count.min(inbox.len())..]
}

/// A client has shown its password, and is let in once that may be told: what was not taken stands
/// behind the bytes of its start message.
fn admit<O: Sink, P: Pace>(
    sink: &mut O,
    pace: &mut P,
    told: &[u8],
    start: List<u8>,
    rest: &[u8],
) -> Result<Entrance, NoMemory>
    ensures so { IfOk result (λ e. IsAdmitted (start ++ rest.now) told.now e (O.taken sink.old)
        (O.taken sink.new)) }
    ensures judged { IfOk result (λ e. IsJudged e → P.passes pace.old < P.passes pace.new) }
    ensures paced { P.passes pace.old ≤ P.passes pace.new }
    ensures failed { result ≡ Ok WriteFault
        → Rose (O.fault_count sink.old) (O.fault_count sink.new) }
    ensures later { O.fault_count sink.old ≤ O.fault_count sink.new }
{
    let mut front = start;
    front.extend_from_slice(rest)?;
    if !pace.wait() {
        return Ok(Entrance::HeldBack);
    }
    if !tell(sink, told) {
        return Ok(Entrance::WriteFault);
    }
    Ok(Entrance::LetIn(front))
}

/// A client is told why it is not let in; that of its password once it may be told.
fn turn_away<O: Sink, P: Pace>(
    alloc: Global,
    sink: &mut O,
    pace: &mut P,
    refusal: Refusal,
) -> Result<Entrance, NoMemory>
    ensures so { IfOk result (λ e. IsRefused refusal e (O.taken sink.old) (O.taken sink.new)) }
    ensures judged { IfOk result (λ e. IsJudged e → P.passes pace.old < P.passes pace.new) }
    ensures paced { P.passes pace.old ≤ P.passes pace.new }
    ensures failed { result ≡ Ok WriteFault
        → Rose (O.fault_count sink.old) (O.fault_count sink.new) }
    ensures later { O.fault_count sink.old ≤ O.fault_count sink.new }
{
    let told = refusal_bytes(alloc, refusal)?;
    if refusal == Refusal::Password && !pace.wait() {
        return Ok(Entrance::HeldBack);
    }
    if !tell(sink, told.as_slice()) {
        return Ok(Entrance::WriteFault);
    }
    Ok(Entrance::Refused(refusal))
}

/// What the bytes lead to that have come, with what the client is told.
fn step<I: Source, O: Sink, P: Pace>(
    alloc: Global,
    source: &mut I,
    sink: &mut O,
    pace: &mut P,
    guard: Guard<'_>,
    reception: &mut Reception,
    inbox: &mut List<u8>,
) -> Result<Option<Entrance>, NoMemory>
    ensures goes { IfOk result (λ e. MatchOption e
        (Moves guard.entry.users.now reception.old inbox.old (I.left source.old)
        (O.taken sink.old) reception.new inbox.new (I.left source.new) (O.taken sink.new))
        (λ e. Reaches guard.entry.users.now reception.old inbox.old (I.ended source.new)
        (O.taken sink.old) e (O.taken sink.new))) }
    ensures unread { IfOk result (λ e. IfSome e (λ _. I.left source.new ≡ I.left source.old)) }
    ensures judged { IfOk result (λ e. IfSome e (λ e. IsJudged e
        → P.passes pace.old < P.passes pace.new)) }
    ensures paced { P.passes pace.old ≤ P.passes pace.new }
    ensures read { result ≡ Ok (Some ReadFault)
        → Rose (I.fault_count source.old) (I.fault_count source.new) }
    ensures write { result ≡ Ok (Some WriteFault)
        → Rose (O.fault_count sink.old) (O.fault_count sink.new) }
    ensures read_later { I.fault_count source.old ≤ I.fault_count source.new }
    ensures write_later { O.fault_count sink.old ≤ O.fault_count sink.new }
{
    match reception.hear(alloc, guard, inbox.as_slice())? {
        Reply::More => read_more(source, inbox),
        Reply::Tells { taken, told } => {
            pass(alloc, inbox, taken)?;
            if tell(sink, told.as_slice()) {
                Ok(None)
            } else {
                Ok(Some(Entrance::WriteFault))
            }
        }
        Reply::LetsIn { taken, told, start } => {
            let rest = rest_of(inbox.as_slice(), taken);
            Ok(Some(admit(sink, pace, told.as_slice(), start, rest)?))
        }
        Reply::Refuses(refusal) => Ok(Some(turn_away(alloc, sink, pace, refusal)?)),
        Reply::Leaves => Ok(Some(Entrance::Gone)),
    }
}

/// Asks a client for its password, and lets it in once it has shown that it knows it. The nonce is
/// fresh, one printable byte or more. What it shows is answered as the pace has it.
pub fn enter<I: Source, O: Sink, P: Pace>(
    alloc: Global,
    source: &mut I,
    sink: &mut O,
    pace: &mut P,
    guard: Guard<'_>,
    nonce: List<u8>,
) -> Result<Entrance, NoMemory>
    // There is a course of steps over the bytes of the source, from the first one on, that ends so,
    // and the sink has taken what the client is told in them.
    ensures entered { IfOk result (λ e. IsEntered guard.entry.users.now
        (Reception.Greeted false false nonce) (I.left source.old) (O.taken sink.old) e
        (I.ended source.new) (I.left source.new) (O.taken sink.new)) }
    ensures judged { IfOk result (λ e. IsJudged e → P.passes pace.old < P.passes pace.new) }
    ensures read { result ≡ Ok ReadFault
        → Rose (I.fault_count source.old) (I.fault_count source.new) }
    ensures write { result ≡ Ok WriteFault
        → Rose (O.fault_count sink.old) (O.fault_count sink.new) }
{
    let mut reception = Reception::new(nonce);
    let mut inbox = List::new(alloc);
    'steps: for made in 0..MOST_STEPS {
        match step(alloc, source, sink, pace, guard, &mut reception, &mut inbox) {
            Ok(None) => {}
            Ok(Some(entrance)) => {
                drop(reception);
                drop(inbox);
                return Ok(entrance);
            }
            Err(NoMemory) => {
                drop(reception);
                drop(inbox);
                return Err(NoMemory);
            }
        }
    }
    drop(reception);
    drop(inbox);
    Ok(Entrance::Gone)
}
