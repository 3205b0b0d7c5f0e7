//! The world behind a list of events.
ghost use Rattle.std.specs.Prelude.{◌≡◌, ℕ, IfOk, Err};
ghost use Rattle.schema.specs.Allowed.{AreAllowed};
ghost use Rattle.schema.specs.Ranges.{AreInRange};
ghost use Rattle.one_copy_model.specs.World.{after, after_all, MayHappen, IsSchedule, FailsAt};
ghost use Rattle.world_program.specs.Meaning.{world_of};
ghost use Rattle.world_program.specs.Alike.{AreAlike};
ghost use Rattle.world_program.specs.OneStore.{IsOfOneStore};
ghost use Rattle.world_program.specs.Starting.{start_of};
ghost use Rattle.world_program.specs.UnderWay.{IsFit};
ghost use Rattle.world_program.specs.declared.fault.ReplayFault.TheVariants as faults;

use crate::data::Replicas;
use crate::fault::ReplayFault;
use crate::may::may_happen;
use crate::moving::step;
use checked_sql::catalogue_copied;
use one_copy_model::Event;
use pool_base::BackendSet;
use schema::Catalogue;
use session_machine::ReadPolicy;
use std::alloc::Global;

/// How a world begins: its tables, how the backend of a read is chosen, and the backends that are
/// attached.
#[derive(Drop)]
pub struct Start {
    pub catalogue: Catalogue,
    pub policy: ReadPolicy,
    pub attached: BackendSet,
}

/// The world behind an event, which has that number.
fn behind(w: Replicas, event: &Event, n: usize) -> Result<Replicas, ReplayFault>
    requires { IsFit (world_of w) }
    ensures may { IfOk result (λ _. MayHappen (world_of w) event.now) }
    ensures leads { IfOk result (λ new. AreAlike (world_of new) (after (world_of w) event.now)) }
    ensures fails { (m : ℕ) → result ≡ Err (faults.Event m)
        → (m ≡ n) × (¬ (MayHappen (world_of w) event.now)) }
{
    if !may_happen(&w, event)? {
        return Err(ReplayFault::Event(n));
    }
    Ok(step(w, event)?)
}

/// The world behind all events, but for the answers of chains that no session reads any more. The
/// events are a schedule then, and so of one store: one copy, agreement, acknowledged commits.
///
/// Errors: the first event that may not come; want of memory.
pub fn replay(alloc: Global, start: &Start, events: &[Event]) -> Result<Replicas, ReplayFault>
    requires in_range { AreInRange start.now.catalogue }
    requires allowed { AreAllowed start.now.catalogue }
    ensures schedule { IfOk result (λ _. IsSchedule (start_of start.now) events.now) }
    ensures world { IfOk result (λ w. AreAlike (world_of w)
        (after_all (start_of start.now) events.now)) }
    ensures one_store { IfOk result (λ _. IsOfOneStore start.now events.now) }

    // The one event that is the first that may not come.
    ensures fails { (n : ℕ) → result ≡ Err (faults.Event n)
        → FailsAt (start_of start.now) events.now n }
{
    let tables = catalogue_copied(alloc, &start.catalogue)?;
    let mut w = Replicas::new(alloc, tables, start.policy, start.attached)?;
    for n in 0..events.len() {
        w = match behind(w, &events[n], n) {
            Ok(next) => next,
            Err(fault) => return Err(fault),
        };
    }
    Ok(w)
}
