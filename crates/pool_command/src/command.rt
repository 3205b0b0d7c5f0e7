//! What the program is told to do.
use pool_base::Text;

/// A command: what to do, with the names of the files to read.
#[derive(PartialEq, Eq, Drop)]
pub enum Command {
    /// Play a script, and write its transcript and maybe its journal.
    Play {
        config: Text,
        schema: Text,
        script: Text,
        journal: bool,
    },
    /// Play a script that is made from a number, with so many lines, and write a summary.
    Generate {
        config: Text,
        schema: Text,
        number: u32,
        size: u32,
    },
    /// Serve TCP clients.
    Serve {
        config: Text,
        schema: Text,
    },
}
