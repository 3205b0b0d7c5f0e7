//! What a configuration says.
use pool_base::{List, Text};

/// One backend: where it listens, and how much of the reading it is to get.
#[derive(PartialEq, Eq, Drop)]
pub struct Node {
    pub host: Text,
    pub port: u16,
    /// Its share of the reads, from 0 to 1000, beside the weights of the other backends.
    pub weight: u32,
}

/// A user who is let in with a password: its name, and the text of the verifier that was made of
/// its password.
#[derive(PartialEq, Eq, Drop)]
pub struct ScramUser {
    pub name: Text,
    pub verifier: Text,
}

/// How long sessions wait, and what is told of them.
#[derive(Clone, Copy, PartialEq, Eq)]
pub struct Sessions {
    /// How many seconds a server may leave the pool without an answer, from 2 to 600.
    pub server_timeout: u32,
    /// How many seconds a client has to be let in, from 1 to 600.
    pub authentication_timeout: u32,
    /// A client that sends nothing for so many seconds is put out, from 1 to 86400; 0 is never.
    pub client_idle_limit: u32,
    /// The start of each session is told.
    pub log_connections: bool,
    /// The end of each session is told.
    pub log_disconnections: bool,
}

/// A configuration: the backends by number, and how clients are served.
#[derive(PartialEq, Eq, Drop)]
pub struct Config {
    pub nodes: List<Node>,
    pub listen: Text,
    pub port: u16,
    /// How many clients are served at once, from 1 to 64.
    pub children: u32,
    /// Reads are spread over the backends (`load_balance_mode`).
    pub balance: bool,
    /// The backend of a read is chosen for each statement (`statement_level_load_balance`).
    pub per_statement: bool,
    pub sessions: Sessions,
    /// Who is let in with a password. Where there is nobody, each client is let in.
    pub users: List<ScramUser>,
    /// What the backends are shown where they ask for a password.
    pub backend_password: Option<Text>,
}
