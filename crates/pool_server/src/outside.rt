//! What a session needs of what lies outside it: the gate, its client's bytes, somebody to tell.
ghost use Rattle.std.specs.Prelude.{◌≡◌, ◌<◌, ◌≤◌, ◌||◌, ◌++◌, ◌∷◌, [], Bool, List, Option, true, IfNone, IfSome, length};
ghost use Rattle.pool_base.specs.Outside.{Appends, FaultyRead, Gave, Rose, is_end};
ghost use Rattle.shared_gate.specs.History.{Stand, is_grant, stand_next};
ghost use Rattle.pool_server.specs.Deeds.{Call, made};
ghost use Rattle.pool_server.specs.Notes.{Detached, Ended, NoneLeft, Note};
ghost use Rattle.pool_server.specs.Passes.{cuts, is_leave, may_make};

use crate::end::EndCause;
use pool_base::{BackendId, GateAnswer, GateCall, Got, SessionId, Source};
use session_machine::Cause;

/// The gate, as one session calls it.
///
/// `stand` is where its pass stands, by the calls that were granted. `cut` is whether a view
/// without a backend has come while it stood in a commit. `calls` are the calls of its pass so far,
/// each with its answer.
pub trait GatePass {
    ghost stand: { Self → Stand };

    ghost cut: { Self → Bool };

    ghost calls: { Self → List Call };

    /// Whether the pass may make that call where it stands. No session makes those of a recovery.
    fn may_step(&self, call: GateCall) -> bool
        ensures { result ≡ may_make (stand self.now) call };

    /// One call, with the gate's answer. The calls by which a pass goes out are granted.
    fn step(&mut self, call: GateCall) -> GateAnswer
        requires { may_make (stand self.old) call ≡ true }
        ensures stand { stand self.new ≡ stand_next (stand self.old) call result }
        ensures cut { cut self.new ≡ (cut self.old || cuts (stand self.new) result) }
        ensures calls { calls self.new ≡ calls self.old ++ made call result ∷ [] }
        ensures leaves { is_leave call ≡ true → is_grant result ≡ true };

    /// Waits a little before a call is made again that was held so many times, or before what
    /// lacked memory is tried again.
    fn pause(&mut self, tries: u32)
        ensures stand { stand self.new ≡ stand self.old }
        ensures cut { cut self.new ≡ cut self.old }
        ensures calls { calls self.new ≡ calls self.old };

    /// Whether no backend was left while the pass stood in a commit.
    fn is_cut(&self) -> bool
        ensures { result ≡ cut self.now };
}

/// How long a client is listened for.
#[derive(Clone, Copy, PartialEq, Eq)]
pub enum Spell {
    /// A short while.
    Short,
    /// A second, or what is of its order.
    Long,
}

/// Where a client stands that may be put out.
#[derive(Clone, Copy, PartialEq, Eq)]
pub enum Posture {
    /// Its session rests, in no transaction.
    Resting,
    /// Its session rests, and a transaction is under way.
    InBlock,
    /// It awaits an answer.
    Waiting,
}

/// What gives a client's bytes, can be waited for a while alone, and says when the client is to be
/// put out.
pub trait ClientSource: Source {
    /// Whether it has said that the client is to be put out.
    ghost dismissed: { Self → Bool };

    /// Whether the client is to be put out: it was silent for too long, or the pool stops.
    fn is_dismissed(&mut self, posture: Posture) -> bool
        ensures dismissed { dismissed self.new ≡ (dismissed self.old || result) }
        ensures left { Self.left self.new ≡ Self.left self.old }
        ensures ended { Self.ended self.new ≡ Self.ended self.old }
        ensures faults { Self.fault_count self.new ≡ Self.fault_count self.old };

    /// Whether the client is gone: its connection has failed or ended, and the count of faults
    /// rose.
    fn is_gone(&mut self) -> bool
        ensures gone { result ≡ true
            → Rose (Self.fault_count self.old) (Self.fault_count self.new) }
        ensures later { Self.fault_count self.old ≤ Self.fault_count self.new }
        ensures dismissed { dismissed self.new ≡ dismissed self.old }
        ensures left { Self.left self.new ≡ Self.left self.old }
        ensures ended { Self.ended self.new ≡ Self.ended self.old };

    /// Reads the next bytes into the piece, where some come within such a while, or the end.
    /// `None`: nothing has come so far.
    fn read_soon(&mut self, spell: Spell, into: &mut [u8]) -> Option<Got>
        requires { 0 < length into.old }
        ensures dismissed { dismissed self.new ≡ dismissed self.old }
        ensures len { length into.new ≡ length into.old }
        ensures gives { IfSome result (λ got. Gave got into.new (Self.left self.old)
            (Self.left self.new)) }
        ensures ended { IfSome result (λ got. Self.ended self.new
            ≡ (Self.ended self.old || is_end got)) }
        ensures nothing { IfNone result ((Self.left self.new ≡ Self.left self.old)
            × (Self.ended self.new ≡ Self.ended self.old)) }
        ensures failed { IfSome result (λ got. FaultyRead got (Self.fault_count self.old)
            (Self.fault_count self.new)) }
        ensures later { Self.fault_count self.old ≤ Self.fault_count self.new };
}

/// Who is told what an operator wants to know. `told` is what was told so far, where it is kept.
pub trait Notices {
    ghost told: { Self → Option (List Note) };

    /// The session has detached the backend.
    fn detached(&mut self, s: SessionId, b: BackendId, cause: &Cause)
        ensures told { Appends (told self.old) (told self.new) (Detached s b cause.now ∷ []) };

    /// No backend is attached any more.
    fn none_left(&mut self)
        ensures told { Appends (told self.old) (told self.new) (NoneLeft ∷ []) };

    /// The session has ended.
    fn ended(&mut self, s: SessionId, cause: EndCause)
        ensures told { Appends (told self.old) (told self.new) (Ended s cause ∷ []) };
}
