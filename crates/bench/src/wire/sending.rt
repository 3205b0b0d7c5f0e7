//! What a client sends, and when it waits for its replies.
ghost use Rattle.schema.specs.Grammar.{IsWithin};

use crate::wire::client::Client;
use crate::wire::pieces::{Piece, pair, query, sync, whole};
use crate::wire::world::{Stop, World};
use pool_base::NoMemory;
use std::alloc::Global;

/// What is sent so many times.
#[derive(Clone, Copy, PartialEq, Eq)]
pub enum Kind {
    /// A Query, whose reply the client awaits.
    Query,
    /// Bind, Describe, Execute and Sync, whose replies the client awaits.
    Whole,
    /// Bind and Execute, all of them and a Sync before the first reply.
    Pipeline,
}

impl Kind {
    fn name(self) -> &'static str {
        match self {
            Kind::Query => "Query",
            Kind::Whole => "Bind, Describe, Execute, Sync",
            Kind::Pipeline => "Bind, Execute, all before the first reply",
        }
    }

    fn piece(self, alloc: Global) -> Result<Piece, NoMemory> {
        match self {
            Kind::Query => query(alloc),
            Kind::Whole => whole(alloc),
            Kind::Pipeline => pair(alloc),
        }
    }
}

/// A piece that is sent so many times.
#[derive(Drop)]
pub struct Sending {
    kind: Kind,
    piece: Piece,
    sync: Piece,
    times: u32,
}

impl Sending {
    /// What is sent so many times, made ready.
    pub fn new(alloc: Global, kind: Kind, times: u32) -> Result<Sending, Stop> {
        Ok(Sending {
            kind,
            piece: kind.piece(alloc)?,
            sync: sync(alloc)?,
            times,
        })
    }

    /// What is told of it.
    pub fn name(&self) -> &'static str {
        self.kind.name()
    }

    /// The client sends all, and all is answered.
    pub fn send(&self, world: World, client: &mut Client) -> Result<(), Stop>
        requires within { IsWithin world.tables.now }
    {
        match self.kind {
            Kind::Query | Kind::Whole => self.send_each(world, client),
            Kind::Pipeline => self.send_all(world, client),
        }
    }

    fn send_each(&self, world: World, client: &mut Client) -> Result<(), Stop>
        requires within { IsWithin world.tables.now }
    {
        for _ in 0..self.times {
            client.feed(&self.piece)?;
            client.go_on(world)?;
        }
        Ok(())
    }

    fn send_all(&self, world: World, client: &mut Client) -> Result<(), Stop>
        requires within { IsWithin world.tables.now }
    {
        for _ in 0..self.times {
            client.feed(&self.piece)?;
        }
        client.feed(&self.sync)?;
        client.go_on(world)
    }
}
