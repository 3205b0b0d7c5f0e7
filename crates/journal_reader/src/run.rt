//! The lines of a journal, one after another.
ghost use Rattle.std.specs.Prelude.{◌≡◌, ◌≤◌, ◌<◌, IfOk, IfSome, length};
ghost use Rattle.schema.specs.Grammar.{IsWithin};
ghost use Rattle.schema.specs.Allowed.{AreAllowed};
ghost use Rattle.schema.specs.Ranges.{AreInRange};
ghost use Rattle.one_copy_model.specs.World.{MayHappen};
ghost use Rattle.world_program.specs.Meaning.{world_of};
ghost use Rattle.world_program.specs.UnderWay.{IsFit};
ghost use Rattle.play_laws.specs.Lines.{line_of};
ghost use Rattle.play_laws.specs.Runs.{IsRunOf, IsRunOfOneStore, Leads};

use crate::events::read_event;
use crate::fault::LineFault;
use crate::run_fault::{RunFault, fault_at};
use catalogue::Catalogue;
use checked_sql::catalogue_copied;
use one_copy_model::Event;
use std::alloc::Global;
use world_program::{Replicas, Start, step};

/// How many bytes the first line has, with its end.
fn line_len(bytes: &[u8]) -> Option<usize>
    ensures within { IfSome result (λ n. n ≤ length bytes.now) }
    ensures some { IfSome result (λ n. 0 < n) }
{
    for n in 0..bytes.len() {
        if bytes[n] == b'\n' {
            return Some(n + 1);
        }
    }
    None
}

/// The world behind an event that may come and has the line.
fn stepped(
    tables: &Catalogue,
    w: Replicas,
    event: &Event,
    line: &[u8],
) -> Result<Replicas, LineFault>
    requires fit { IsFit (world_of w) }
    requires printed { line_of tables.now event.now ≡ line.now }
    requires may { MayHappen (world_of w) event.now }
    ensures { IfOk result (λ new. Leads tables.now (world_of w) line.now (world_of new)) }
{
    Ok(step(w, event)?)
}

/// The world behind a line, with its end.
fn behind(
    alloc: Global,
    tables: &Catalogue,
    w: Replicas,
    line: &[u8],
) -> Result<Replicas, LineFault>
    requires within { IsWithin tables.now }
    requires fit { IsFit (world_of w) }
    ensures { IfOk result (λ new. Leads tables.now (world_of w) line.now (world_of new)) }
{
    match read_event(alloc, tables, &w, line) {
        Ok(event) => stepped(tables, w, &event, line),
        Err(fault) => {
            drop(w);
            Err(fault)
        }
    }
}

/// How many lines these are, each of which has its end. Each is the line of an event that may come
/// where it stands, in the world that begins so.
///
/// Errors: the first line for which no such event was found; want of memory.
pub fn check_events(alloc: Global, start: &Start, lines: &[u8]) -> Result<usize, RunFault>
    requires in_range { AreInRange start.now.catalogue }
    requires allowed { AreAllowed start.now.catalogue }
    ensures run { IfOk result (IsRunOf start.now lines.now) }
    // So their replies are those of one store, and the backends agree with it.
    ensures one_store { IfOk result (IsRunOfOneStore start.now lines.now) }
{
    let tables = catalogue_copied(alloc, &start.catalogue)?;
    let mut w = Replicas::new(alloc, tables, start.policy, start.attached)?;
    let mut left = lines;
    let mut n: usize = 0;
    'lines: while !left.is_empty() {
        let Some(len) = line_len(left) else {
            drop(w);
            return Err(RunFault::BadLine(n));
        };
        let (line, more) = left.split_at(len);
        w = match behind(alloc, &start.catalogue, w, line) {
            Ok(next) => next,
            Err(fault) => return Err(fault_at(fault, n)),
        };
        left = more;
        n += 1;
    }
    drop(w);
    Ok(n)
}
