//! Portals by their names.
ghost use Rattle.std.specs.Prelude.{◌≡◌, ◌+◌, drop, length, None, OnOk, Some, vec_len};
ghost use Rattle.std.specs.Option.{option_map};
ghost use Rattle.wire_session.specs.Giving.{advanced, at_most, bound_of, gives, in_state, passed, rows_of};
ghost use Rattle.wire_session.specs.Kept.{HasNone, portal_of};
ghost use Rattle.wire_session.specs.Standing.{PortalStands, TellsPlace};

use crate::session::Control;
use catalogue::Checked;
use pool_base::{Boxed, List, NoMemory};
use std::alloc::Global;
use std::mem;

/// So many portals a session may have, that of the empty name among them.
pub const PORTAL_LIMIT: usize = 64;

/// Where a portal stands.
#[derive(Drop)]
pub enum PortalState {
    /// It is of an empty text.
    Empty,
    /// It is to begin or end a block.
    Control(Control),
    /// It has its statement to run.
    Bound(Boxed<Checked>),
    /// It has run: its rows as messages, of which the first `given` were given.
    Rows { rows: List<List<u8>>, given: usize },
    /// It has run, or was given up, and has no rows.
    Ran,
}

impl PortalState {
    /// The next rows, from its place on, at most so many where the limit is above 0; none of a
    /// portal that has no rows.
    pub fn next_rows(&self, limit: i32) -> &[List<u8>]
        ensures { result.now ≡ rows_of limit self.now }
    {
        match self {
            PortalState::Rows { rows, given } => next_of(rows.as_slice(), *given, limit),
            PortalState::Empty | PortalState::Control(_) => &[],
            PortalState::Bound(_) | PortalState::Ran => &[],
        }
    }

    /// It has given its next rows.
    fn advance(&mut self, limit: i32)
        ensures { self.new ≡ passed limit self.old }
    {
        if let PortalState::Rows { rows, given } = self {
            *given = behind(rows.as_slice(), *given, limit);
        }
    }
}

/// How many rows may be given at once, if there is a bound.
pub fn bound_of(limit: i32) -> Option<usize>
    ensures { result ≡ bound_of limit }
{
    if limit > 0 {
        Some(limit as usize)
    } else {
        None
    }
}

fn left_of(rows: &[List<u8>], given: usize) -> &[List<u8>]
    ensures { result.now ≡ drop given rows.now }
{
    if given > rows.len() {
        return &[];
    }
    rows.split_at(given).1
}

fn at_most(rows: &[List<u8>], bound: Option<usize>) -> &[List<u8>]
    ensures { result.now ≡ at_most bound rows.now }
{
    match bound {
        Some(bound) if bound < rows.len() => rows.split_at(bound).0,
        _ => rows,
    }
}

fn next_of(rows: &[List<u8>], given: usize, limit: i32) -> &[List<u8>]
    ensures { result.now ≡ gives limit rows.now given }
{
    at_most(left_of(rows, given), bound_of(limit))
}

/// The place behind the next rows.
fn behind(rows: &[List<u8>], given: usize, limit: i32) -> usize
    ensures { result ≡ given + length (gives limit rows.now given) }
{
    given + next_of(rows, given, limit).len()
}

/// A portal: its name, what a Describe of it is told, the formats of its rows, whether it may run
/// in a failed block, and where it stands.
#[derive(Drop)]
pub struct Portal {
    pub name: List<u8>,
    pub description: List<u8>,
    pub formats: List<u16>,
    pub ends_block: bool,
    pub state: PortalState,
}

/// The portals of a session.
#[derive(Drop)]
pub struct Portals {
    entries: Vec<Portal>,
}

impl Portals {
    /// No portals. It takes no memory.
    pub fn new(alloc: Global) -> Portals
        ensures { HasNone result }
    {
        Portals {
            entries: Vec::new(alloc),
        }
    }

    /// How many there are.
    pub fn len(&self) -> usize
        ensures { result ≡ vec_len self.now.entries }
    {
        self.entries.len()
    }

    fn place_of(&self, name: &[u8]) -> Option<usize>
        ensures { TellsPlace name.now self.now.entries.items result }
    {
        for (at, portal) in self.entries.as_slice().iter().enumerate() {
            if portal.name.as_slice() == name {
                return Some(at);
            }
        }
        None
    }

    /// The portal of a name.
    pub fn get(&self, name: &[u8]) -> Option<&Portal>
        ensures { option_map (λ portal. portal.now) result ≡ portal_of name.now self.now }
    {
        for portal in self.entries.as_slice() {
            if portal.name.as_slice() == name {
                return Some(portal);
            }
        }
        None
    }

    /// Lets the portal of a name stand so, if it is there: where it stood before.
    pub fn set(&mut self, name: &[u8], state: PortalState) -> Option<PortalState>
        ensures before { result ≡ option_map (λ portal. portal.state)
            (portal_of name.now self.old) }
        ensures stands { PortalStands name.now
            (option_map (in_state state) (portal_of name.now self.old)) self.old self.new }
    {
        match self.place_of(name) {
            Some(at) => Some(mem::replace(&mut self.entries[at].state, state)),
            None => {
                drop(state);
                None
            }
        }
    }

    /// The portal of a name has given its next rows, if it is there.
    pub fn advance(&mut self, name: &[u8], limit: i32)
        ensures { PortalStands name.now
            (option_map (advanced limit) (portal_of name.now self.old)) self.old self.new }
    {
        if let Some(at) = self.place_of(name) {
            self.entries[at].state.advance(limit);
        }
    }

    /// Whether there is a portal of that name.
    pub fn has(&self, name: &[u8]) -> bool {
        self.get(name).is_some()
    }

    /// Drops a portal, if it is there.
    pub fn close(&mut self, name: &[u8])
        ensures { PortalStands name.now None self.old self.new }
    {
        self.entries.retain(|portal| portal.name.as_slice() != name);
    }

    /// Drops all portals.
    pub fn clear(&mut self)
        ensures { HasNone self.new }
    {
        self.entries.clear();
    }

    /// Puts a portal, also in place of another of its name.
    pub fn put(&mut self, portal: Portal) -> Result<(), NoMemory>
        ensures { OnOk result (PortalStands portal.name (Some portal) self.old self.new) }
    {
        self.entries.reserve(1)?;
        self.close(portal.name.as_slice());
        self.entries.push(portal)?;
        Ok(())
    }
}
