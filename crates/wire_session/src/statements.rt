//! Prepared statements by their names.
ghost use Rattle.std.specs.Prelude.{◌≡◌, None, OnOk, Some, vec_len};
ghost use Rattle.std.specs.Option.{option_map};
ghost use Rattle.wire_session.specs.Kept.{HasNoName, prepared};
ghost use Rattle.wire_session.specs.Standing.{StatementStands};

use crate::session::Control;
use catalogue::Checked;
use pool_base::{Boxed, List, NoMemory};
use std::alloc::Global;

/// So many names a session may have for statements, the empty one among them.
pub const STATEMENT_NAME_LIMIT: usize = 256;

/// What a name of a prepared statement stands for.
#[derive(Drop)]
pub enum Prepared {
    /// An empty text.
    Empty,
    Control(Control),
    Checked(Boxed<Checked>),
}

#[derive(Drop)]
struct Entry {
    name: List<u8>,
    what: Prepared,
}

/// The prepared statements of a session.
#[derive(Drop)]
pub struct Statements {
    entries: Vec<Entry>,
}

impl Statements {
    /// No statements. It takes no memory.
    pub fn new(alloc: Global) -> Statements
        ensures { HasNoName result }
    {
        Statements {
            entries: Vec::new(alloc),
        }
    }

    /// How many names there are.
    pub fn len(&self) -> usize
        ensures { result ≡ vec_len self.now.entries }
    {
        self.entries.len()
    }

    /// What a name stands for.
    pub fn get(&self, name: &[u8]) -> Option<&Prepared>
        ensures { option_map (λ what. what.now) result ≡ prepared name.now self.now }
    {
        for entry in self.entries.as_slice() {
            if entry.name.as_slice() == name {
                return Some(&entry.what);
            }
        }
        None
    }

    /// Whether a name stands for a statement.
    pub fn has(&self, name: &[u8]) -> bool {
        self.get(name).is_some()
    }

    /// Drops a name, if it is there.
    pub fn close(&mut self, name: &[u8])
        ensures { StatementStands name.now None self.old self.new }
    {
        self.entries.retain(|entry| entry.name.as_slice() != name);
    }

    /// Lets a name stand for a statement, also where it stood for another.
    pub fn put(&mut self, name: List<u8>, what: Prepared) -> Result<(), NoMemory>
        ensures { OnOk result (StatementStands name (Some what) self.old self.new) }
    {
        self.entries.reserve(1)?;
        self.close(name.as_slice());
        self.entries.push(Entry { name, what })?;
        Ok(())
    }
}
