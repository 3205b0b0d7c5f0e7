//! One connection of a client, as the log names it.

use crate::names::{database_of, option_of};
use crate::shown::shown_name;
use pg_messages::Pair;
use pool_base::{List, NoMemory};
use std::alloc::Global;
use std::cell::{Cell, OnceCell};
use std::net::SocketAddr;
use std::{fmt, str};

/// Who a client says that it is, as the log shows it.
#[derive(Drop)]
struct Names {
    user: List<u8>,
    database: List<u8>,
}

/// Why a session has ended before its first order.
#[derive(Clone, Copy)]
pub enum Turned {
    /// It was not.
    No,
    /// Its start message was not whole in time.
    Late,
}

/// A connection of a client.
#[derive(Drop)]
pub struct Visit {
    /// It is not used again.
    pub number: u64,
    pub from: Option<SocketAddr>,
    names: OnceCell<Names>,
    pub turned: Cell<Turned>,
}

/// A name as the log shows it.
fn name_of(alloc: Global, name: Option<&[u8]>) -> Result<List<u8>, NoMemory> {
    match name {
        Some(name) => shown_name(alloc, name),
        None => Ok(List::new(alloc)),
    }
}

impl Visit {
    /// A client that has said nothing yet.
    pub fn new(number: u64, from: Option<SocketAddr>) -> Visit {
        Visit {
            number,
            from,
            names: OnceCell::new(),
            turned: Cell::new(Turned::No),
        }
    }

    /// The client has said who it is.
    pub fn heed(&self, alloc: Global, options: &[Pair]) -> Result<(), NoMemory> {
        let user = name_of(alloc, option_of(options, b"user"))?;
        let database = name_of(alloc, database_of(options))?;
        drop(self.names.set(Names { user, database }));
        Ok(())
    }

    /// Whether the client has said who it is.
    pub fn has_names(&self) -> bool {
        self.names.get().is_some()
    }
}

/// The text of bytes that are shown.
fn text_of(bytes: &List<u8>) -> &str {
    str::from_utf8(bytes.as_slice()).unwrap_or("")
}

impl fmt::Display for Visit {
    fn fmt<W: fmt::Write>(&self, f: &mut fmt::Formatter<W>) -> fmt::Result {
        let number = self.number;
        write!(f, "session {number} (")?;
        match self.from {
            Some(from) => write!(f, "{from}")?,
            None => f.write_str("address unknown")?,
        }
        if let Some(names) = self.names.get() {
            let (user, database) = (text_of(&names.user), text_of(&names.database));
            write!(f, ", user {user}, database {database}")?;
        }
        f.write_str(")")
    }
}
