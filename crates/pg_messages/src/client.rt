//! The messages that a client sends once it has been let in.

use pool_base::List;

/// A message of a client.
///
/// Source: PostgreSQL, Frontend/Backend Protocol, "Message Formats".
#[derive(PartialEq, Eq, Drop)]
pub enum ClientMessage {
    /// Statements as a text, to be run at once.
    Query {
        text: List<u8>,
    },
    /// A statement to be prepared under a name; `kinds` are OIDs of parameter types, 0 for none
    /// stated.
    Parse {
        name: List<u8>,
        text: List<u8>,
        kinds: List<u32>,
    },
    /// A portal to be made of the statement `name`; `formats` and `results` are 0 (text) and 1
    /// (binary).
    Bind {
        portal: List<u8>,
        name: List<u8>,
        formats: List<u16>,
        values: List<Option<List<u8>>>,
        results: List<u16>,
    },
    /// Describes a portal, or else a statement.
    Describe {
        portal: bool,
        name: List<u8>,
    },
    /// Runs a portal; `limit` is the most rows to give, all where it is 0 or negative.
    Execute {
        portal: List<u8>,
        limit: i32,
    },
    /// Closes a portal, or else a statement.
    Close {
        portal: bool,
        name: List<u8>,
    },
    Flush,
    Sync,
    Terminate,
    /// A function call, a password or a part of a COPY: `F`, `p`, `d`, `c` or `f`, whose body is
    /// not kept.
    Other {
        tag: u8,
    },
}
