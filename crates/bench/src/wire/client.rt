//! A client, and the session behind its wire.
ghost use Rattle.schema.specs.Grammar.{IsWithin};

use crate::wire::answering::outcome_of;
use crate::wire::pieces::{Piece, parse, start};
use crate::wire::world::{Stop, World};
use pool_base::SessionId;
use session_orders::Order;
use session_wire::{Wire, WireStep};

/// What has come of what was fed.
#[derive(Clone, Copy, Debug, PartialEq, Eq, Drop)]
pub struct Tally {
    pub messages: u64,
    pub fed: u64,
    pub orders: u64,
    pub written: u64,
}

const NOTHING: Tally = Tally {
    messages: 0,
    fed: 0,
    orders: 0,
    written: 0,
};

/// A client's wire, and what has come of what was fed.
#[derive(Drop)]
pub struct Client {
    wire: Wire,
    tally: Tally,
}

impl Client {
    /// A client that was let in and has prepared its statement. Nothing is counted yet.
    pub fn let_in(world: World) -> Result<Client, Stop>
        requires within { IsWithin world.tables.now }
    {
        let Some(s) = SessionId::from_number(1) else {
            return Err(Stop::Otherwise);
        };
        let mut client = Client {
            wire: Wire::new(world.alloc, s)?,
            tally: NOTHING,
        };
        match client.begin(world) {
            Ok(()) => Ok(client),
            Err(stop) => {
                drop(client);
                Err(stop)
            }
        }
    }

    /// Sends the start message and a Parse, and is answered. Nothing is counted of it.
    fn begin(&mut self, world: World) -> Result<(), Stop>
        requires within { IsWithin world.tables.now }
    {
        self.feed(&start(world.alloc)?)?;
        self.feed(&parse(world.alloc)?)?;
        self.go_on(world)?;
        self.tally = NOTHING;
        Ok(())
    }

    /// What has come of what was fed.
    pub fn tally(&self) -> Tally {
        self.tally
    }

    /// Feeds messages.
    pub fn feed(&mut self, piece: &Piece) -> Result<(), Stop> {
        self.wire.feed(piece.bytes.as_slice())?;
        self.tally.messages = self.tally.messages.saturating_add(piece.messages);
        self.tally.fed = self.tally.fed.saturating_add(piece.bytes.len() as u64);
        Ok(())
    }

    /// Answers each order until more input is wanted, and writes what was put out.
    pub fn go_on(&mut self, world: World) -> Result<(), Stop>
        requires within { IsWithin world.tables.now }
    {
        for _ in 0..u64::MAX {
            match self.wire.next(world.tables, 0)? {
                WireStep::Order(order) => self.answer(world, order)?,
                WireStep::NeedInput => {
                    self.write();
                    return Ok(());
                }
                WireStep::NeedOutcome | WireStep::Close { .. } => return Err(Stop::Otherwise),
            }
        }
        Err(Stop::Otherwise)
    }

    /// Answers an order outside a block.
    fn answer(&mut self, world: World, order: Order) -> Result<(), Stop> {
        let outcome = outcome_of(world.alloc, order.body)?;
        self.wire.answer(world.config, outcome, b'I')?;
        self.tally.orders = self.tally.orders.saturating_add(1);
        Ok(())
    }

    /// Writes what was put out.
    fn write(&mut self) {
        let count = self.wire.output().len();
        self.wire.written(count);
        self.tally.written = self.tally.written.saturating_add(count as u64);
    }
}
