//! What a wire is asked with, and why a measurement stops.
ghost use Rattle.std.specs.Prelude.{IfOk};
ghost use Rattle.schema.specs.Grammar.{IsWithin};

use catalogue::{Catalogue, SchemaFault, read_schema};
use pool_base::{List, NoMemory, Text};
use pool_config::{Config, Sessions};
use std::alloc::Global;

/// Why a measurement stops.
#[derive(Clone, Copy, Debug, PartialEq, Eq, Drop)]
pub enum Stop {
    NoMemory,
    /// What came is not what was to come.
    Otherwise,
}

impl From<NoMemory> for Stop {
    fn from(_: NoMemory) -> Stop {
        Stop::NoMemory
    }
}

/// The tables and the configuration of a wire.
#[derive(Clone, Copy)]
pub struct World<'a> {
    pub alloc: Global,
    pub tables: &'a Catalogue,
    pub config: &'a Config,
}

/// One table.
pub fn tables(alloc: Global) -> Result<Catalogue, Stop>
    ensures { IfOk result (λ tables. IsWithin tables) }
{
    let text = "CREATE TABLE accounts (id int4 PRIMARY KEY, v int4, w text);\n";
    match read_schema(alloc, text.as_bytes()) {
        Ok(tables) => Ok(tables),
        Err(SchemaFault::NoMemory) => Err(Stop::NoMemory),
        Err(SchemaFault::BadLine(_)) => Err(Stop::Otherwise),
    }
}

/// A configuration, of which a client that asks for no nodes sees nothing.
pub fn config(alloc: Global) -> Result<Config, Stop> {
    Ok(Config {
        nodes: List::new(alloc),
        listen: Text::from_str(alloc, "localhost")?,
        port: 9999,
        children: 32,
        balance: true,
        per_statement: false,
        sessions: Sessions {
            server_timeout: 10,
            authentication_timeout: 30,
            client_idle_limit: 0,
            log_connections: false,
            log_disconnections: false,
        },
        users: List::new(alloc),
        backend_password: None,
    })
}
