//! A dialogue that is played over the wire of one session.
ghost use Rattle.schema.specs.Grammar.{IsWithin};

use crate::behind::{Behind, outcome};
use crate::shown::{put_next, put_order, put_replies};
use case_lines::Told;
use catalogue::Catalogue;
use pool_config::Config;
use session_orders::{Order, OrderBody};
use session_wire::{Wire, WireStep};
use std::alloc::Global;

/// What an order is answered over: the tables, the configuration, and the outcomes that are given.
#[derive(Clone, Copy)]
pub(crate) struct World<'a> {
    pub(crate) tables: &'a Catalogue,
    pub(crate) config: &'a Config,
    pub(crate) given: &'a str,
}

/// The most steps between two pieces of input.
const MOST_STEPS: u32 = 1_000_000;

fn put_output(alloc: Global, wire: &mut Wire, told: &mut Told) {
    put_replies(alloc, wire.output(), told);
    let count = wire.output().len();
    wire.written(count);
}

/// Answers an order, unless it is the last of a session.
fn answer(alloc: Global, world: World, wire: &mut Wire, behind: &mut Behind, order: Order) {
    if matches!(order.body, OrderBody::Leave) {
        return drop(order);
    }
    let outcome = outcome(alloc, behind, world.given, order.body);
    let status = behind.status;
    let _ = wire.answer(world.config, outcome, status);
}

/// One step, and what it puts out; false where more input is wanted, or the session is over.
fn step(alloc: Global, world: World, wire: &mut Wire, behind: &mut Behind, told: &mut Told) -> bool
    requires within { IsWithin world.tables.now }
{
    let next = wire.next(world.tables, 0);
    put_output(alloc, wire, told);
    match next {
        Ok(WireStep::NeedInput | WireStep::NeedOutcome) => false,
        Ok(WireStep::Close { refused }) => {
            put_next(told);
            told.put(if refused { "closed, refused" } else { "closed" });
            behind.is_over = true;
            false
        }
        Ok(WireStep::Order(order)) => {
            put_order(alloc, world.tables, &order.body, told);
            answer(alloc, world, wire, behind, order);
            put_output(alloc, wire, told);
            true
        }
        Err(_) => false,
    }
}

/// Feeds a piece, and takes all steps that it allows.
pub(crate) fn feed(
    alloc: Global,
    world: World,
    wire: &mut Wire,
    behind: &mut Behind,
    piece: &[u8],
    told: &mut Told,
)
    requires within { IsWithin world.tables.now }
{
    let _ = wire.feed(piece);
    go_on(alloc, world, wire, behind, told);
}

/// Takes all steps that the input so far allows; none where the session is over.
pub(crate) fn go_on(
    alloc: Global,
    world: World,
    wire: &mut Wire,
    behind: &mut Behind,
    told: &mut Told,
)
    requires within { IsWithin world.tables.now }
{
    for _ in 0..MOST_STEPS {
        if behind.is_over || !step(alloc, world, wire, behind, told) {
            break;
        }
    }
}
