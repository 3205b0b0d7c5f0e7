//! The lines of a script.
use pool_base::{BackendId, List, SessionId, Text};

/// The lines of a script, without blank lines and comments.
pub type Script = List<ScriptLine>;

/// One line of a script.
#[derive(Drop)]
pub enum ScriptLine {
    /// `session n`: a client connects as session n.
    Session(SessionId),
    /// `lose b`: backend b is lost.
    Lose(BackendId),
    /// `cut k`: from here on the clients' bytes come in pieces of k bytes.
    Cut(u32),
    /// `moment "text"`: the clock shows this moment from here on.
    Moment(Text),
    /// `n hold`: session n takes no step until it is let go.
    Hold(SessionId),
    /// `n go`: session n takes steps again.
    Go(SessionId),
    /// `n until mark`: session n alone takes steps until the mark, and is held there.
    Until(SessionId, Mark),
    /// `n raw "hex"`: session n's client sends these bytes.
    Raw(SessionId, List<u8>),
    /// `n 'Q' "text"`
    Query(SessionId, Text),
    /// `n 'P' "name" "text" count kind..`
    Parse {
        s: SessionId,
        name: Text,
        text: Text,
        kinds: List<u32>,
    },
    /// `n 'D' 'S' "name"` of a statement, `n 'D' 'P' "name"` of a portal
    Describe {
        s: SessionId,
        portal: bool,
        name: Text,
    },
    /// `n 'B' "portal" "name" count format.. count value.. count format..`
    Bind {
        s: SessionId,
        portal: Text,
        name: Text,
        formats: List<u16>,
        values: List<ScriptValue>,
        results: List<u16>,
    },
    /// `n 'E' "portal" limit`
    Execute {
        s: SessionId,
        portal: Text,
        limit: i32,
    },
    /// `n 'C' 'S' "name"` of a statement, `n 'C' 'P' "name"` of a portal
    Close {
        s: SessionId,
        portal: bool,
        name: Text,
    },
    /// `n 'H'`
    Flush(SessionId),
    /// `n 'S'`
    Sync(SessionId),
    /// `n 'X'`
    Terminate(SessionId),
}

/// Where a session stops.
#[derive(Clone, Copy)]
pub enum Mark {
    /// It took an order.
    Order,
    /// It entered a snapshot.
    Snapshot,
    /// It entered a commit.
    Commit,
    /// It posted a request to this backend.
    Post(BackendId),
    /// It took an answer of this backend.
    Answer(BackendId),
    /// It gave a reply.
    Reply,
}

/// A value of a `B` line.
#[derive(Drop)]
pub enum ScriptValue {
    /// `null`
    Null,
    /// `"text"`
    Str(Text),
    /// `x"hex"`
    Hex(List<u8>),
}
