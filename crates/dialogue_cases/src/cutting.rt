//! The bytes of a dialogue in pieces: whatever they are cut into, the orders and replies are the
//! same.
ghost use Rattle.std.specs.Prelude.{◌<◌};
ghost use Rattle.schema.specs.Grammar.{IsWithin};

use crate::behind::Behind;
use crate::lines::{put_played, sent_of};
use crate::playing::{World, feed, go_on};
use crate::sending::put_sent;
use case_lines::Told;
use pool_base::{List, SessionId};
use session_wire::Wire;
use std::alloc::Global;

/// How bytes are cut: in pieces of one size, or of sizes by a seed.
#[derive(Clone, Copy)]
enum Cut {
    Each(usize),
    Seed(u64),
}

/// The next number of a seed: a linear congruential generator.
///
/// Source: Knuth, "The Art of Computer Programming", volume 2, the constants of MMIX.
fn after(seed: u64) -> u64 {
    seed.wrapping_mul(6_364_136_223_846_793_005)
        .wrapping_add(1_442_695_040_888_963_407)
}

/// A size from 1 on, of a small kind or a large one.
fn size_of(seed: u64) -> usize
    ensures { 0 < result }
{
    let number = (seed / 4_294_967_296) as usize;
    let size = match number % 4 {
        0 => 0,
        1 => number / 4 % 4,
        2 => number / 4 % 16,
        _ => number / 4 % 200,
    };
    size + 1
}

/// The size of the next piece, and how the rest is cut.
fn next_of(cut: Cut) -> (usize, Cut) {
    match cut {
        Cut::Each(size) => (size, cut),
        Cut::Seed(seed) => (size_of(seed), Cut::Seed(after(seed))),
    }
}

/// The bytes of all lines, and whether their input ends.
fn put_all_sent(alloc: Global, lines: &str, onto: &mut List<u8>, told: &mut Told) -> bool {
    let mut ends = false;
    for line in lines.lines() {
        let sent = sent_of(line);
        ends = sent == "end";
        put_sent(alloc, sent, onto, told);
    }
    ends
}

fn feed_cut(
    alloc: Global,
    world: World,
    wire: &mut Wire,
    bytes: &[u8],
    cut: Cut,
    ends: bool,
    told: &mut Told,
)
    requires within { IsWithin world.tables.now }
{
    let mut behind = Behind::new();
    let mut rest = bytes;
    let mut cut = cut;
    for _ in 0..bytes.len() {
        let (size, after) = next_of(cut);
        cut = after;
        if size >= rest.len() {
            break;
        }
        feed(alloc, world, wire, &mut behind, &rest[..size], told);
        rest = &rest[size..];
    }
    feed(alloc, world, wire, &mut behind, rest, told);
    if ends {
        wire.end_input();
        go_on(alloc, world, wire, &mut behind, told);
    }
}

/// Whether the bytes, cut so, have these orders and replies.
fn is_same(alloc: Global, world: World, bytes: &[u8], cut: Cut, ends: bool, wanted: &str) -> bool
    requires within { IsWithin world.tables.now }
{
    let Some(first) = SessionId::from_number(1) else {
        return false;
    };
    let Ok(wire) = Wire::new(alloc, first) else {
        return false;
    };
    let mut wire = wire;
    let mut told = Told::new(alloc);
    feed_cut(alloc, world, &mut wire, bytes, cut, ends, &mut told);
    told.is(wanted)
}

/// How many of so many random cuts have these orders and replies.
fn same_of(alloc: Global, world: World, bytes: &[u8], count: u32, ends: bool, wanted: &str) -> u64
    requires within { IsWithin world.tables.now }
{
    let mut same = 0u64;
    let mut seed = after(20_251_129);
    for _ in 0..count {
        if is_same(alloc, world, bytes, Cut::Seed(seed), ends, wanted) {
            same = same.saturating_add(1);
        }
        seed = after(seed.wrapping_add(1));
    }
    same
}

/// How many cuts of the bytes of a dialogue have the orders and replies of the uncut lines: pieces
/// of 1, of 7, all at once, and so many random cuts.
pub(crate) fn put_cuts(alloc: Global, world: World, lines: &str, count: u32, told: &mut Told)
    requires within { IsWithin world.tables.now }
{
    let mut wanted = Told::new(alloc);
    put_played(alloc, world, lines, 0, &mut wanted);
    let wanted = wanted.as_str();
    let mut bytes = List::new(alloc);
    let ends = put_all_sent(alloc, lines, &mut bytes, told);
    let bytes = bytes.as_slice();
    let mut same = same_of(alloc, world, bytes, count, ends, wanted);
    for size in [1, 7, 2_000_000] {
        if is_same(alloc, world, bytes, Cut::Each(size), ends, wanted) {
            same = same.saturating_add(1);
        }
    }
    told.put_number(same);
    told.put(" the same");
}
