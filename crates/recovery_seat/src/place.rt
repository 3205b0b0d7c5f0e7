//! The place of a session: its seat, and the recovery that its client has ordered.
ghost use Rattle.std.specs.Prelude.{◌≡◌, None, Some, true, false, IfOk};
ghost use Rattle.pool_base.specs.Sets.{has};
ghost use Rattle.pool_base.specs.declared.backend_id.BackendId.{BackendId as Backend};
ghost use Rattle.session_machine.specs.Rules.{new_machine, next_action};
ghost use Rattle.session_engine.specs.Cores.{machine_in};
ghost use Rattle.session_wire.specs.Shown.{IsFresh, shown};
ghost use Rattle.session_seat.specs.declared.seat.Turn.TheVariants as turns;
ghost use Rattle.online_recovery.specs.declared.layout.Layout.{Layout};
ghost use Rattle.online_recovery.specs.Rules.{next_action as recovery_action};
ghost use Rattle.recovery_seat.specs.Places.{standing_at, standing_of};
ghost use Rattle.recovery_seat.specs.Steps.{IsAt, RecoversAt};

use online_recovery::{Recovery, RecoveryAsk};
use pool_base::{BackendId, BackendSet, NoMemory, SessionId};
use session_engine::{Ask, Core};
use session_machine::ReadPolicy;
use session_seat::Seat;
use std::alloc::Global;

/// The place of a session. A recovery is under way from its order to its reply.
#[derive(Drop)]
pub struct Place {
    pub seat: Seat,
    pub(crate) recovery: Option<Recovery>,
    /// The box of the shelf that is set aside for it.
    pub(crate) spare: Option<usize>,
}

impl Place {
    /// A session whose client has sent nothing yet.
    pub fn new(alloc: Global, s: SessionId, policy: ReadPolicy) -> Result<Place, NoMemory>
        ensures s { IfOk result (λ place. place.seat.s ≡ s) }
        ensures core { IfOk result (λ place. machine_in place.seat.core ≡ new_machine s policy) }
        ensures turn { IfOk result (λ place. place.seat.turn ≡ turns.Free) }
        ensures begins { IfOk result (λ place. place.seat.over ≡ false) }
        ensures fresh { IfOk result (λ place. IsFresh s.number (shown place.seat.wire)) }
        ensures recovery { IfOk result (λ place. place.recovery ≡ None) }
    {
        Ok(Place {
            seat: Seat::new(alloc, s, policy)?,
            recovery: None,
            spare: None,
        })
    }

    /// These backends, and the one to which the session or its recovery is due to post a request or
    /// whose answer it waits for.
    pub fn with_its_backend(&self, set: BackendSet) -> BackendSet
        ensures kept { (b : Backend) → has set.bits b.number ≡ true
            → has result.bits b.number ≡ true }
        ensures session { (b : Backend) → IsAt b (next_action (machine_in self.now.seat.core))
            → has result.bits b.number ≡ true }
        ensures recovery { (layout : Layout) → (b : Backend)
            → RecoversAt b (recovery_action (standing_of layout self.now))
            → has result.bits b.number ≡ true }
    {
        let with_own = joined(set, backend_of(&self.seat.core));
        joined(with_own, backend_of_recovery(&self.recovery))
    }
}

/// The backend to which a session is due to post a request, or whose answer it waits for.
pub(crate) fn backend_of(core: &Core) -> Option<BackendId>
    ensures { (b : Backend) → IsAt b (next_action (machine_in core.now)) → result ≡ Some b }
{
    match core.asks() {
        Ask::Post(b) | Ask::WaitFor(b) => Some(b),
        Ask::Rest | Ask::Gate(_) | Ask::Detach(_) | Ask::Reply | Ask::End => None,
    }
}

fn backend_of_recovery(recovery: &Option<Recovery>) -> Option<BackendId>
    ensures { (layout : Layout) → (s : SessionId) → (b : Backend)
        → RecoversAt b (recovery_action (standing_at layout s recovery.now)) → result ≡ Some b }
{
    let Some(recovery) = recovery else {
        return None;
    };
    match recovery.asks() {
        RecoveryAsk::Post(b) | RecoveryAsk::WaitFor(b) => Some(b),
        RecoveryAsk::Rest
        | RecoveryAsk::Gate(_)
        | RecoveryAsk::Swap(_)
        | RecoveryAsk::Detach(_)
        | RecoveryAsk::Reply
        | RecoveryAsk::End => None,
    }
}

/// The set with a backend in it, if there is one.
fn joined(set: BackendSet, b: Option<BackendId>) -> BackendSet
    ensures kept { (c : Backend) → has set.bits c.number ≡ true
        → has result.bits c.number ≡ true }
    ensures there { (c : Backend) → b ≡ Some c → has result.bits c.number ≡ true }
{
    match b {
        None => set,
        Some(b) => set.with(b),
    }
}
