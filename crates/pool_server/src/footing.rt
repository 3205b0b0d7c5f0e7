//! Where a pass stands, for those who keep it beside the gate.
//!
//! ```text
//! Out --EnterSnapshot--> InSnapshot --LeaveSnapshot--> Live --EnterCommit--> InCommit
//!  ▲                                                    │                      │
//!  └──────────────────────Finish────────────────────────┴─────LeaveCommit──────┘
//! ```
ghost use Rattle.std.specs.Prelude.{◌≡◌, ◌||◌, false};
ghost use Rattle.shared_gate.specs.History.{stand_by, stand_next};
ghost use Rattle.pool_server.specs.Passes.{cuts, may_make, shows_none, stand_in};

use pool_base::{GateAnswer, GateCall};

/// Where a session's pass stands.
#[derive(Clone, Copy, Debug, PartialEq, Eq)]
pub enum Phase {
    Out,
    InSnapshot,
    /// In a transaction.
    Live,
    InCommit,
}

impl Phase {
    /// Whether the pass may make that call there.
    fn may_make(self, call: GateCall) -> bool
        ensures { result ≡ may_make (stand_in self) call }
    {
        match call {
            GateCall::Look | GateCall::Detach { .. } => true,
            GateCall::EnterSnapshot => matches!(self, Phase::Out),
            GateCall::LeaveSnapshot => matches!(self, Phase::InSnapshot),
            GateCall::EnterCommit { .. } | GateCall::Finish => matches!(self, Phase::Live),
            GateCall::LeaveCommit => matches!(self, Phase::InCommit),
            GateCall::StartCopy
            | GateCall::AskQuiet
            | GateCall::EnterQuiet
            | GateCall::Attach { .. }
            | GateCall::LeaveQuiet => false,
        }
    }

    /// Where the pass stands after a call with its answer.
    fn after(self, call: GateCall, answer: GateAnswer) -> Phase
        ensures { stand_in result ≡ stand_next (stand_in self) call answer }
    {
        match answer {
            GateAnswer::Granted(_) => self.granted(call),
            GateAnswer::Seen(_) | GateAnswer::Held(_) | GateAnswer::Spent => self,
        }
    }

    fn is_cut_by(self, answer: GateAnswer) -> bool
        ensures { result ≡ cuts (stand_in self) answer }
    {
        matches!(self, Phase::InCommit) && shows_none(answer)
    }

    fn granted(self, call: GateCall) -> Phase
        ensures { stand_in result ≡ stand_by (stand_in self) call }
    {
        match call {
            GateCall::EnterSnapshot => Phase::InSnapshot,
            GateCall::LeaveSnapshot => Phase::Live,
            GateCall::EnterCommit { .. } => Phase::InCommit,
            GateCall::LeaveCommit | GateCall::Finish => Phase::Out,
            GateCall::Look
            | GateCall::Detach { .. }
            | GateCall::StartCopy
            | GateCall::AskQuiet
            | GateCall::EnterQuiet
            | GateCall::Attach { .. }
            | GateCall::LeaveQuiet => self,
        }
    }
}

/// What a session's gate keeps of it: where its pass stands, and whether a view without a backend
/// has come while it stood in a commit.
#[derive(Clone, Copy, Debug, PartialEq, Eq)]
pub struct Footing {
    pub phase: Phase,
    pub is_cut: bool,
}

impl Footing {
    /// Of a pass that is out.
    pub fn new() -> Footing
        ensures phase { result.phase ≡ Phase.Out }
        ensures cut { result.is_cut ≡ false }
    {
        Footing {
            phase: Phase::Out,
            is_cut: false,
        }
    }

    /// Whether the pass may make that call.
    pub fn may_make(self, call: GateCall) -> bool
        ensures { result ≡ may_make (stand_in self.phase) call }
    {
        self.phase.may_make(call)
    }

    /// Behind a call with its answer.
    pub fn after(self, call: GateCall, answer: GateAnswer) -> Footing
        ensures stand { stand_in result.phase ≡ stand_next (stand_in self.phase) call answer }
        ensures cut { result.is_cut ≡ (self.is_cut || cuts (stand_in result.phase) answer) }
    {
        let phase = self.phase.after(call, answer);
        let is_cut = phase.is_cut_by(answer);
        Footing {
            phase,
            is_cut: self.is_cut || is_cut,
        }
    }
}

/// Whether an answer shows that no backend is left.
fn shows_none(answer: GateAnswer) -> bool
    ensures { result ≡ shows_none answer }
{
    match answer {
        GateAnswer::Seen(view) | GateAnswer::Granted(view) => view.attached.bits == 0,
        GateAnswer::Held(_) | GateAnswer::Spent => false,
    }
}
