//! What each change that a recovery makes of the world keeps.
ghost use Rattle.std.specs.Prelude.{◌≡◌, ℕ, false};
ghost use Rattle.pool_base.specs.Sets.{has};
ghost use Rattle.pool_base.specs.declared.session_id.SessionId.{SessionId};
ghost use Rattle.pool_base.specs.declared.backend_id.BackendId.{BackendId};
ghost use Rattle.backend_trait.specs.Store.{Store, prepared};
ghost use Rattle.snapshot_gate.specs.declared.state.GateState.{GateState};
ghost use Rattle.session_machine.specs.declared.machine.GatePhase.TheVariants.{Out};
ghost use Rattle.session_machine.specs.declared.machine.Point.TheVariants.{Resting};
ghost use Rattle.session_machine.specs.declared.machine.ReadPolicy.{ReadPolicy};
ghost use Rattle.one_copy_model.specs.Tracking.{Tracked};
ghost use Rattle.one_copy_model.specs.Invariant.{Invariant};
ghost use Rattle.recovery_laws.specs.Ready.{IsReady, IsSpare, IsTurned, with_backend, with_gate_of, with_new_session, with_spare, without_backend};

/// A Swap: a blank store may stand in the place of a backend that is not attached.
pub fn swap_keeps()
    ensures { (t : Tracked) (b : ℕ) → Invariant t
        → has t.world.gate.attached.bits b ≡ false
        → Invariant (with_spare t b (prepared t.world.tables)) }
{}

/// So may any store of the tables that has no more of sessions than the old one: one that a copy
/// writes.
pub fn spare_keeps()
    ensures { (t : Tracked) (b : ℕ) (st : Store) → Invariant t
        → has t.world.gate.attached.bits b ≡ false → IsSpare t.world b st
        → Invariant (with_spare t b st) }
{}

/// An Attach: a backend that is ready may be attached while the quiet is entered.
pub fn attach_keeps()
    ensures { (t : Tracked) (b : BackendId) → Invariant t → t.world.gate.quiet ≡ 3
        → has t.world.gate.attached.bits b.number ≡ false → IsReady t b.number
        → Invariant (with_backend t b) }
{}

/// The quiet, the epoch and the touched tables of the gate may change, where entered quiet is
/// still.
pub fn turn_keeps()
    ensures { (t : Tracked) (g : GateState) → Invariant t → IsTurned t.world.gate g
        → Invariant (with_gate_of t g) }
{}

/// A session at rest, outside of a transaction, may begin anew.
pub fn renew_keeps()
    ensures { (t : Tracked) (s id : SessionId) (policy : ReadPolicy) → Invariant t
        → (t.world.machine s.number).point ≡ Resting
        → (t.world.machine s.number).session.gate ≡ Out
        → Invariant (with_new_session t s id policy) }
{}

/// A detachment by a recovery, with the deaths behind it, also of the last attached backend.
pub fn detach_keeps()
    ensures { (t : Tracked) (s : SessionId) (b : BackendId) → Invariant t
        → Invariant (without_backend t b) }
{}
