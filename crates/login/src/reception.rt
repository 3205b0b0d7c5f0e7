//! What stands in front of a session where users have passwords: a client is let in once it has
//! shown that it knows the password of the user whose name its start message has.
//!
//! ```text
//! Greeted --a start message--> Showing --the proof of the user's password--> let in
//!  ^   |                        ^   |
//!  +---+ encryption is asked    +---+ the first message
//! ```
//!
//! Anything else ends the connection. What comes may be cut anywhere: it is heard once it is whole.
ghost use Rattle.std.specs.Prelude.{◌≡◌, ◌≢◌, ◌≤◌, ◌∷◌, [], ℕ, false, List as Sequence, codes, length, MatchOption, IfOk, OnErr};
ghost use Rattle.pg_messages.specs.Server.{Fits, spelling};
ghost use Rattle.pg_messages.specs.Fronts.{start_front, login_front};
ghost use Rattle.pg_messages.specs.declared.start.StartMessage.{StartMessage};
ghost use Rattle.pg_messages.specs.declared.read.Read.TheVariants.{Whole};
ghost use Rattle.login.specs.Candidates.{names_in};
ghost use Rattle.login.specs.Receptions.{IsStep, Answers, Asks, IsAsked, Hears, Shows, Follows, ends_so};
ghost use Rattle.pg_messages.specs.declared.server.ServerMessage.TheVariants.{AuthSasl};

use crate::candidate::{Candidate, Guard};
use crate::fault::LoginFault;
use crate::gate::{Answer, Login};
use crate::refusal::Refusal;
use pg_messages::{
    Pair, Read, ServerMessage, StartMessage, read_login, read_start, server_fits, write_server,
};
use pool_base::{List, NoMemory};
use std::alloc::Global;
use std::mem;
use wire_start::{Greeting, Rejection, greeting_of};

/// How far a connection has come to a session.
#[derive(Drop)]
pub enum Reception {
    /// No session was asked for. Which kinds of encryption were declined, and the nonce of the
    /// exchange, which is fresh.
    Greeted {
        ssl: bool,
        gss: bool,
        nonce: List<u8>,
    },
    /// A session was asked for, by these bytes, and the client shows its password.
    Showing {
        login: Login,
        start: List<u8>,
    },
    /// It was let in or turned away.
    Over,
}

/// What the bytes that have come lead to.
#[derive(Drop)]
pub enum Reply {
    /// Nothing yet: more are to come.
    More,
    /// So many of them are taken, and the client is told this.
    Tells {
        taken: usize,
        told: List<u8>,
    },
    /// So many of them are taken, the client is told this, and its session begins: with these bytes
    /// of its start message, and those behind the ones that are taken.
    LetsIn {
        taken: usize,
        told: List<u8>,
        start: List<u8>,
    },
    /// The client is told why, and the connection ends.
    Refuses(Refusal),
    /// The connection ends.
    Leaves,
}

/// A reply, and how far the connection has come.
#[derive(Drop)]
struct Turn {
    next: Reception,
    reply: Reply,
}

impl Reception {
    /// A new connection. The nonce is fresh, one printable byte or more.
    pub fn new(nonce: List<u8>) -> Reception
        ensures { result ≡ Reception.Greeted false false nonce }
    {
        Reception::Greeted {
            ssl: false,
            gss: false,
            nonce,
        }
    }

    /// What the bytes lead to that have come and were not taken.
    pub fn hear(&mut self, alloc: Global, guard: Guard<'_>, inbox: &[u8]) -> Result<Reply, NoMemory>
        ensures step { IfOk result (λ reply. IsStep guard.entry.users.now self.old inbox.now reply
            self.new) }
        ensures over { OnErr result (self.new ≡ Reception.Over) }
    {
        let turn = turn_of(alloc, guard, mem::replace(self, Reception::Over), inbox)?;
        *self = turn.next;
        Ok(turn.reply)
    }
}

/// What the bytes lead to that have come.
fn turn_of(
    alloc: Global,
    guard: Guard<'_>,
    reception: Reception,
    inbox: &[u8],
) -> Result<Turn, NoMemory>
    ensures { IfOk result (λ t. IsStep guard.entry.users.now reception inbox.now t.reply t.next) }
{
    match reception {
        Reception::Greeted { ssl, gss, nonce } => greet(alloc, guard, ssl, gss, nonce, inbox),
        Reception::Showing { login, start } => show(alloc, login, start, inbox),
        Reception::Over => Ok(ended(Reply::Leaves)),
    }
}

/// The connection ends so.
fn ended(reply: Reply) -> Turn
    ensures next { result.next ≡ Reception.Over }
    ensures reply { result.reply ≡ reply }
{
    Turn {
        next: Reception::Over,
        reply,
    }
}

/// What stands at the front of the bytes of a connection that asks for no session yet.
fn start_of(alloc: Global, inbox: &[u8]) -> Result<Read<StartMessage>, NoMemory>
    ensures exact { IfOk result (λ read. read ≡ start_front inbox.now) }
    ensures length { IfOk result (λ read. (m : StartMessage) (n : ℕ) → read ≡ Whole m n
        → n ≤ length inbox.now) }
{
    let read = read_start(alloc, inbox)?;
    Ok(read)
}

/// What stands at the front of the bytes of a client that shows its password.
fn body_of(alloc: Global, inbox: &[u8]) -> Result<Read<List<u8>>, NoMemory>
    ensures exact { IfOk result (λ read. read ≡ login_front inbox.now) }
{
    let read = read_login(alloc, inbox)?;
    Ok(read)
}

/// What a connection says that asks for no session yet.
fn greet(
    alloc: Global,
    guard: Guard<'_>,
    ssl: bool,
    gss: bool,
    nonce: List<u8>,
    inbox: &[u8],
) -> Result<Turn, NoMemory>
    ensures { IfOk result (λ t. IsStep guard.entry.users.now (Reception.Greeted ssl gss nonce)
        inbox.now t.reply t.next) }
{
    match start_of(alloc, inbox) {
        Ok(Read::Whole { message, length }) => {
            let greeting = greeting_of(ssl, gss, message);
            answer(alloc, guard, greeting, nonce, &inbox[..length])
        }
        Ok(Read::More) => Ok(Turn {
            next: Reception::Greeted { ssl, gss, nonce },
            reply: Reply::More,
        }),
        Ok(Read::Bad { .. }) => {
            drop(nonce);
            Ok(ended(Reply::Refuses(Refusal::Malformed)))
        }
        Ok(Read::TooLong { .. }) => {
            drop(nonce);
            Ok(ended(Reply::Refuses(Refusal::TooLong)))
        }
        Err(NoMemory) => {
            drop(nonce);
            Err(NoMemory)
        }
    }
}

/// Why a start message is refused.
fn refusal_by(rejection: Rejection) -> Refusal
    ensures { result ≡ ends_so rejection }
{
    match rejection {
        Rejection::AskedTwice => Refusal::Malformed,
        Rejection::MinorVersion => Refusal::MinorVersion,
        Rejection::Encoding => Refusal::Encoding,
    }
}

/// What follows the first message of a connection, whose bytes these are.
fn answer(
    alloc: Global,
    guard: Guard<'_>,
    greeting: Greeting,
    nonce: List<u8>,
    start: &[u8],
) -> Result<Turn, NoMemory>
    ensures { IfOk result (λ t. Answers guard.entry.users.now nonce start.now greeting t.reply
        t.next) }
{
    match greeting {
        Greeting::Declined { ssl, gss } => decline(alloc, ssl, gss, nonce, start.len()),
        Greeting::LetIn { options } => ask(alloc, guard, options.as_slice(), nonce, start),
        Greeting::Refused(rejection) => {
            drop(nonce);
            Ok(ended(Reply::Refuses(refusal_by(rejection))))
        }
        Greeting::Cancelled => {
            drop(nonce);
            Ok(ended(Reply::Leaves))
        }
    }
}

/// A request for encryption of so many bytes is declined.
fn decline(
    alloc: Global,
    ssl: bool,
    gss: bool,
    nonce: List<u8>,
    taken: usize,
) -> Result<Turn, NoMemory>
    ensures reply { IfOk result (λ t. t.reply ≡ Reply.Tells taken (codes "N")) }
    ensures next { IfOk result (λ t. t.next ≡ Reception.Greeted ssl gss nonce) }
{
    match List::from_slice(alloc, b"N") {
        Ok(told) => Ok(Turn {
            next: Reception::Greeted { ssl, gss, nonce },
            reply: Reply::Tells { taken, told },
        }),
        Err(NoMemory) => {
            drop(nonce);
            Err(NoMemory)
        }
    }
}

/// The name of the user, where the options have one and no other.
fn name_in(options: &[Pair]) -> Option<&[u8]>
    ensures { MatchOption result ((name : Sequence ℕ) → names_in options.now ≢ name ∷ [])
        (λ name. names_in options.now ≡ name.now ∷ []) }
{
    let mut found: Option<&[u8]> = None;
    let mut left = options;
    while let [option, rest @ ..] = left {
        if option.name.as_slice() == b"user".as_slice() {
            if found.is_some() {
                return None;
            }
            found = Some(option.value.as_slice());
        }
        left = rest;
    }
    found
}

/// The client is asked for the password of its user.
fn ask(
    alloc: Global,
    guard: Guard<'_>,
    options: &[Pair],
    nonce: List<u8>,
    start: &[u8],
) -> Result<Turn, NoMemory>
    ensures { IfOk result (λ t. Asks guard.entry.users.now nonce start.now options.now t.reply
        t.next) }
{
    match name_in(options) {
        Some(name) => ask_for(alloc, guard, name, nonce, start),
        None => {
            drop(nonce);
            Ok(ended(Reply::Refuses(Refusal::Malformed)))
        }
    }
}

/// The client is asked for the password of the user of this name.
fn ask_for(
    alloc: Global,
    guard: Guard<'_>,
    name: &[u8],
    nonce: List<u8>,
    start: &[u8],
) -> Result<Turn, NoMemory>
    ensures { IfOk result (λ t. IsAsked guard.entry.users.now nonce start.now name.now t.reply
        t.next) }
{
    match guard.candidate(alloc, name) {
        Ok(candidate) => begun(alloc, candidate, nonce, start),
        Err(NoMemory) => {
            drop(nonce);
            Err(NoMemory)
        }
    }
}

/// What the client is told that asks for its password.
fn question(alloc: Global) -> Result<List<u8>, NoMemory>
    ensures { IfOk result (λ told. told ≡ spelling AuthSasl) }
{
    let mut told = List::new(alloc);
    write_server(&ServerMessage::AuthSasl, &mut told)?;
    Ok(told)
}

/// What is told and kept where a password is asked for.
fn question_of(alloc: Global, start: &[u8]) -> Result<(List<u8>, List<u8>), NoMemory>
    ensures told { IfOk result (λ both. both.0 ≡ spelling AuthSasl) }
    ensures kept { IfOk result (λ both. both.1 ≡ start.now) }
{
    let told = question(alloc)?;
    let kept = List::from_slice(alloc, start)?;
    Ok((told, kept))
}

/// The client is asked for the password of this candidate.
fn begun(
    alloc: Global,
    candidate: Candidate,
    nonce: List<u8>,
    start: &[u8],
) -> Result<Turn, NoMemory>
    ensures told { IfOk result (λ t. t.reply ≡ Reply.Tells (length start.now)
        (spelling AuthSasl)) }
    ensures next { IfOk result (λ t. t.next ≡ Reception.Showing (Login.Asked candidate.verifier
        candidate.is_user nonce) start.now) }
{
    match question_of(alloc, start) {
        Ok((told, kept)) => Ok(Turn {
            next: Reception::Showing {
                login: Login::new(candidate.verifier, candidate.is_user, nonce),
                start: kept,
            },
            reply: Reply::Tells {
                taken: start.len(),
                told,
            },
        }),
        Err(NoMemory) => {
            drop(candidate);
            drop(nonce);
            Err(NoMemory)
        }
    }
}

/// What a client says that shows its password.
fn show(alloc: Global, login: Login, start: List<u8>, inbox: &[u8]) -> Result<Turn, NoMemory>
    ensures { IfOk result (λ t. Hears login start (login_front inbox.now) t.reply t.next) }
{
    match body_of(alloc, inbox) {
        Ok(
            Read::Whole {
                message: body,
                length,
            },
        ) => shown(alloc, login, start, body.as_slice(), length),
        Ok(Read::More) => Ok(Turn {
            next: Reception::Showing { login, start },
            reply: Reply::More,
        }),
        Ok(Read::Bad { .. }) => Ok(over(login, start, Reply::Refuses(Refusal::Malformed))),
        Ok(Read::TooLong { .. }) => Ok(over(login, start, Reply::Refuses(Refusal::TooLong))),
        Err(NoMemory) => {
            drop(login);
            drop(start);
            Err(NoMemory)
        }
    }
}

/// The connection of a client that shows its password ends so.
fn over(login: Login, start: List<u8>, reply: Reply) -> Turn
    ensures next { result.next ≡ Reception.Over }
    ensures reply { result.reply ≡ reply }
{
    drop(login);
    drop(start);
    ended(reply)
}

/// The bytes of a message, where it is not too long.
fn told_by(alloc: Global, message: &ServerMessage) -> Result<Option<List<u8>>, NoMemory>
    ensures { IfOk result (λ told. MatchOption told (¬ (Fits message.now))
        (λ bytes. bytes ≡ spelling message.now)) }
{
    if !server_fits(message) {
        return Ok(None);
    }
    let mut told = List::new(alloc);
    write_server(message, &mut told)?;
    Ok(Some(told))
}

/// What the body of a client's message leads to, which takes so many bytes.
fn shown(
    alloc: Global,
    login: Login,
    start: List<u8>,
    body: &[u8],
    length: usize,
) -> Result<Turn, NoMemory>
    ensures { IfOk result (λ t. Shows login start body.now length t.reply t.next) }
{
    let mut login = login;
    match login.hear(alloc, body) {
        Ok(answer) => follow(alloc, login, start, length, answer),
        Err(NoMemory) => {
            drop(login);
            drop(start);
            Err(NoMemory)
        }
    }
}

/// What an answer to a client leads to.
fn follow(
    alloc: Global,
    login: Login,
    start: List<u8>,
    length: usize,
    answer: Answer,
) -> Result<Turn, NoMemory>
    ensures { IfOk result (λ t. Follows start length answer login t.reply t.next) }
{
    match answer {
        Answer::Goes(message) => go_on(alloc, login, start, length, message),
        Answer::LetIn(message) => let_in(alloc, login, start, length, message),
        Answer::Refused(LoginFault::Password) => {
            Ok(over(login, start, Reply::Refuses(Refusal::Password)))
        }
        Answer::Refused(LoginFault::Malformed) => {
            Ok(over(login, start, Reply::Refuses(Refusal::Malformed)))
        }
    }
}

/// The client is told this, and says one thing more.
fn go_on(
    alloc: Global,
    login: Login,
    start: List<u8>,
    length: usize,
    message: ServerMessage,
) -> Result<Turn, NoMemory>
    ensures { IfOk result (λ t. Follows start length (Answer.Goes message) login t.reply t.next) }
{
    let told = told_by(alloc, &message);
    drop(message);
    match told {
        Ok(Some(told)) => Ok(Turn {
            next: Reception::Showing { login, start },
            reply: Reply::Tells {
                taken: length,
                told,
            },
        }),
        Ok(None) => Ok(over(login, start, Reply::Refuses(Refusal::TooLong))),
        Err(NoMemory) => {
            drop(login);
            drop(start);
            Err(NoMemory)
        }
    }
}

/// The client is told this, and its session begins.
fn let_in(
    alloc: Global,
    login: Login,
    start: List<u8>,
    length: usize,
    message: ServerMessage,
) -> Result<Turn, NoMemory>
    ensures { IfOk result (λ t. Follows start length (Answer.LetIn message) login t.reply t.next) }
{
    drop(login);
    let told = told_by(alloc, &message);
    drop(message);
    match told {
        Ok(Some(told)) => Ok(ended(Reply::LetsIn {
            taken: length,
            told,
            start,
        })),
        Ok(None) => {
            drop(start);
            Ok(ended(Reply::Refuses(Refusal::TooLong)))
        }
        Err(NoMemory) => {
            drop(start);
            Err(NoMemory)
        }
    }
}
