//! The messages that begin a connection.

use pool_base::List;

/// The first message of a connection.
///
/// Source: PostgreSQL, Frontend/Backend Protocol, "Message Formats".
#[derive(Drop)]
pub enum StartMessage {
    /// A session, by version and options.
    Start {
        major: u16,
        minor: u16,
        options: List<Pair>,
    },
    /// Asks for encryption by TLS.
    Ssl,
    /// Asks for encryption by GSSAPI.
    Gss,
    /// Asks that the session of that key be interrupted.
    Cancel {
        process: i32,
        secret: i32,
    },
}

/// An option of a session, as `user` or `database`.
#[derive(PartialEq, Eq, Drop)]
pub struct Pair {
    pub name: List<u8>,
    pub value: List<u8>,
}
