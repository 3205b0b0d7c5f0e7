//! What a start message leads to.
ghost use Rattle.std.specs.Prelude.{◌↔◌, All, IsTrue};
ghost use Rattle.wire_start.specs.Greetings.{IsUtf8Name, IsTaken, Begins, Greets};

use pg_messages::{Pair, StartMessage};
use pool_base::List;

/// What a start message leads to.
#[derive(Drop)]
pub enum Greeting {
    /// Encryption is declined, and another start message comes.
    Declined { ssl: bool, gss: bool },
    /// The session begins.
    LetIn { options: List<Pair> },
    /// The client is refused, and the session ends.
    Refused(Rejection),
    /// It asks that another session be interrupted, which the pool does not do.
    Cancelled,
}

/// Why a client is not let in.
#[derive(Clone, Copy, PartialEq, Eq)]
pub enum Rejection {
    /// Encryption of one kind was asked for twice.
    AskedTwice,
    /// A minor version other than 0.
    MinorVersion,
    /// An encoding other than UTF-8.
    Encoding,
}

fn is_utf8(name: &[u8]) -> bool
    ensures { IsTrue result ↔ IsUtf8Name name.now }
{
    name.eq_ignore_ascii_case(b"utf8")
        || name.eq_ignore_ascii_case(b"utf-8")
        || name.eq_ignore_ascii_case(b"unicode")
}

fn is_taken(option: &Pair) -> bool
    ensures { IsTrue result ↔ IsTaken option.now }
{
    option.name.as_slice() != b"client_encoding".as_slice() || is_utf8(option.value.as_slice())
}

fn are_taken(options: &[Pair]) -> bool
    ensures { IsTrue result ↔ All IsTaken options.now }
{
    options.iter().all(|option| is_taken(option))
}

/// A session of a version and with options.
fn begun(minor: u16, options: List<Pair>) -> Greeting
    ensures { Begins minor options result }
{
    if minor != 0 {
        drop(options);
        return Greeting::Refused(Rejection::MinorVersion);
    }
    if !are_taken(options.as_slice()) {
        drop(options);
        return Greeting::Refused(Rejection::Encoding);
    }
    Greeting::LetIn { options }
}

/// What a start message leads to, where encryption by TLS and by GSSAPI was asked for before or
/// not.
///
/// Source: PostgreSQL, Frontend/Backend Protocol, "Start-up". House rule: encryption is declined
/// once, and options other than the encoding are passed over.
pub fn greeting_of(ssl: bool, gss: bool, message: StartMessage) -> Greeting
    ensures { Greets ssl gss message result }
{
    match message {
        StartMessage::Ssl => {
            if ssl {
                Greeting::Refused(Rejection::AskedTwice)
            } else {
                Greeting::Declined { ssl: true, gss }
            }
        }
        StartMessage::Gss => {
            if gss {
                Greeting::Refused(Rejection::AskedTwice)
            } else {
                Greeting::Declined { ssl, gss: true }
            }
        }
        StartMessage::Cancel { .. } => Greeting::Cancelled,
        StartMessage::Start { minor, options, .. } => begun(minor, options),
    }
}
