//! What a run is to do, once its words and its texts were read.
use crate::schemas::SchemaStop;
use crate::scripts::ScriptStop;
use crate::status::Status;
use pgproto::Script;
use pool_config::{Config, ConfigFault};
use schema::Catalogue;

/// How a script is played.
#[derive(Clone, Copy)]
pub enum Way {
    /// As the single statements of one client.
    OneClient,
    /// As sessions over the wire; with their journal, or without.
    Sessions { journal: bool },
}

/// Lines that are to be played, and how.
#[derive(Drop)]
pub struct Lines {
    pub script: Script,
    pub way: Way,
}

/// A script that is to be played, over the backends of a configuration.
#[derive(Drop)]
pub struct Plan {
    pub config: Config,
    pub catalogue: Catalogue,
    pub lines: Lines,
}

/// Why no script is played.
#[derive(Drop)]
pub enum Stop {
    /// A text was not read, or memory was refused: nothing is written.
    Unread(Status),
    /// The words are no command.
    NoCommand,
    /// The configuration is above its limit in bytes.
    ConfigTooLong,
    /// The configuration has this fault.
    Config(ConfigFault),
    /// The schema is refused, or was not read.
    Schema(SchemaStop),
    /// The script is refused, or was not read.
    Script(ScriptStop),
    /// The words and the texts ask for what is not built yet.
    NotBuilt,
}
