//! A client shows the pool that it knows its password.
//!
//! ```text
//! Asked --a first message--> Challenged --a last message--> Over
//!   |                                                        ^
//!   +--------------------- a bad message --------------------+
//! ```
//!
//! A name that no user has goes the same way, with a verifier that was made up, and is turned away
//! at the end.
ghost use Rattle.std.specs.Prelude.{◌≡◌, true, false, IfOk, OnErr};
ghost use Rattle.login.specs.Gates.{IsTurn};
ghost use Rattle.login.specs.declared.gate.Login.{Login};

use crate::fault::LoginFault;
use crate::initial::message_of;
use pg_messages::ServerMessage;
use pool_base::{List, NoMemory};
use scram::{ScramFault, ScramServer, Verifier};
use std::alloc::Global;
use std::mem;

/// How far a client has shown that it knows its password.
#[derive(Drop)]
pub enum Login {
    /// The ways are told. Where the name is that of no user, the verifier is made up.
    Asked {
        verifier: Verifier,
        is_user: bool,
        nonce: List<u8>,
    },
    /// Its first message was answered.
    Challenged {
        server: ScramServer,
        is_user: bool,
    },
    /// It was let in or turned away.
    Over,
}

/// What is answered to a message.
#[derive(Drop)]
pub enum Answer {
    /// The client is told this, and says one thing more.
    Goes(ServerMessage),
    /// The client is told this, and is let in.
    LetIn(ServerMessage),
    /// The client is turned away.
    Refused(LoginFault),
}

/// An answer, and how far the client has come.
#[derive(Drop)]
struct Turn {
    next: Login,
    answer: Answer,
}

impl Login {
    /// The beginning, once `AuthSasl` was told. The nonce is fresh, one printable byte or more.
    pub fn new(verifier: Verifier, is_user: bool, nonce: List<u8>) -> Login
        ensures { result ≡ Login.Asked verifier is_user nonce }
    {
        Login::Asked {
            verifier,
            is_user,
            nonce,
        }
    }

    /// The answer to the body of a client's next message `p`.
    pub fn hear(&mut self, alloc: Global, body: &[u8]) -> Result<Answer, NoMemory>
        ensures turn { IfOk result (λ answer. IsTurn self.old body.now answer self.new) }
        ensures over { OnErr result (self.new ≡ Login.Over) }
    {
        let turn = match mem::replace(self, Login::Over) {
            Login::Asked {
                verifier,
                is_user,
                nonce,
            } => begin(alloc, verifier, is_user, nonce, body)?,
            Login::Challenged { server, is_user } => judge(alloc, server, is_user, body)?,
            Login::Over => Turn {
                next: Login::Over,
                answer: Answer::Refused(LoginFault::Malformed),
            },
        };
        *self = turn.next;
        Ok(turn.answer)
    }
}

/// The client is turned away.
fn turned_away(fault: LoginFault) -> Turn
    ensures next { result.next ≡ Login.Over }
    ensures answer { result.answer ≡ Answer.Refused fault }
{
    Turn {
        next: Login::Over,
        answer: Answer::Refused(fault),
    }
}

/// The answer to a first message.
fn begin(
    alloc: Global,
    verifier: Verifier,
    is_user: bool,
    nonce: List<u8>,
    body: &[u8],
) -> Result<Turn, NoMemory>
    ensures { IfOk result (λ t. IsTurn (Login.Asked verifier is_user nonce) body.now t.answer
        t.next) }
{
    let Some(message) = message_of(body) else {
        return Ok(turned_away(LoginFault::Malformed));
    };
    let mut server = ScramServer::new(verifier, nonce);
    match server.first(alloc, message) {
        Ok(reply) => Ok(Turn {
            next: Login::Challenged { server, is_user },
            answer: Answer::Goes(ServerMessage::AuthContinue { body: reply }),
        }),
        Err(ScramFault::NoMemory) => Err(NoMemory),
        Err(ScramFault::Malformed) | Err(ScramFault::WrongProof) => {
            Ok(turned_away(LoginFault::Malformed))
        }
    }
}

/// The client is let in, if it is a user.
fn admitted(is_user: bool, reply: List<u8>) -> Turn
    ensures next { result.next ≡ Login.Over }
    ensures user { is_user ≡ true → result.answer ≡ Answer.LetIn (ServerMessage.AuthFinal reply) }
    ensures other { is_user ≡ false → result.answer ≡ Answer.Refused LoginFault.Password }
{
    if !is_user {
        drop(reply);
        return turned_away(LoginFault::Password);
    }
    Turn {
        next: Login::Over,
        answer: Answer::LetIn(ServerMessage::AuthFinal { body: reply }),
    }
}

/// The answer to a last message. It is looked at in the same way whether or not there is such a
/// user.
fn judge(alloc: Global, server: ScramServer, is_user: bool, body: &[u8]) -> Result<Turn, NoMemory>
    ensures { IfOk result (λ t. IsTurn (Login.Challenged server is_user) body.now t.answer
        t.next) }
{
    let mut server = server;
    match server.last(alloc, body) {
        Ok(reply) => Ok(admitted(is_user, reply)),
        Err(ScramFault::NoMemory) => Err(NoMemory),
        Err(ScramFault::WrongProof) => Ok(turned_away(LoginFault::Password)),
        Err(ScramFault::Malformed) => Ok(turned_away(LoginFault::Malformed)),
    }
}
