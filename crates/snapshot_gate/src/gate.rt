//! The gate of one thread.
//!
//! ```text
//!            EnterSnapshot        LeaveSnapshot        EnterCommit          LeaveCommit
//! session:  out ---------> in a snapshot ---------> live ---------> in a commit ---------> out
//!                                                     \---------- Finish ----------------> out
//!            StartCopy        AskQuiet      EnterQuiet       LeaveQuiet (from each)
//! recovery: none ---------> copying ---------> asked ---------> entered ---------> none
//! ```
//!
//! A snapshot is held off by commits and by a recovery that has asked for quiet, a commit by
//! snapshots. All transitions are made by `Gate::step`; it knows no caller, so a caller's condition
//! is one on the state.
ghost use Rattle.std.specs.Prelude.{◌≡◌, ◌+◌, ◌^◌, ◌<◌, ◌≤◌, [], ◌∷◌, true};
ghost use Rattle.pool_base.specs.Sets.{size};
ghost use Rattle.snapshot_gate.specs.Function.{first, step, MayCall};

use crate::state::GateState;
use pool_base::{BackendId, BackendSet, GateAnswer, GateCall, View};

/// The gate: what it holds, and the facts that every call keeps.
#[derive(Clone, Copy, PartialEq, Eq)]
pub struct Gate {
    pub state: GateState,
    ghost ordered: { state.commits ≤ state.live },
    ghost few: { state.snaps + state.live ≤ 65535 },
    ghost room: { state.done + state.snaps + state.live ≤ 2 ^ 63 },
    ghost versions: { state.epoch + size state.attached.bits ≤ 4294967288 },
    ghost wide: { (state.attached.bits < 256) × (state.quiet ≤ 3) },
}

impl Gate {
    /// The gate at the start. It takes no memory.
    pub fn new(attached: BackendSet) -> Gate
        ensures { result.state ≡ first attached }
    {
        Gate {
            state: GateState {
                attached,
                epoch: 0,
                snaps: 0,
                commits: 0,
                live: 0,
                quiet: 0,
                done: 0,
                touched: 0,
            },
        }
    }

    fn view(&self) -> View
        ensures { result ≡ Rattle.snapshot_gate.specs.Function.view_of self.now.state }
    {
        View {
            attached: self.state.attached,
            epoch: self.state.epoch,
            touched: self.state.touched,
            done: self.state.done,
        }
    }

    /// One call, with its answer. A refused call changes nothing. No call takes memory.
    pub fn step(&mut self, call: GateCall) -> GateAnswer
        requires { MayCall self.old.state call }
        ensures { (self.new.state, result) ≡ step self.old.state call }
    {
        match call {
            GateCall::Look => GateAnswer::Seen(self.view()),
            GateCall::EnterSnapshot => self.enter_snapshot(),
            GateCall::LeaveSnapshot => self.leave_snapshot(),
            GateCall::EnterCommit { tables } => self.enter_commit(tables),
            GateCall::LeaveCommit => self.leave_commit(),
            GateCall::Finish => self.finish(),
            GateCall::Detach { b } => self.detach(b),
            GateCall::StartCopy => self.start_copy(),
            GateCall::AskQuiet => self.set_quiet(2),
            GateCall::EnterQuiet => self.enter_quiet(),
            GateCall::Attach { b } => self.attach(b),
            GateCall::LeaveQuiet => self.set_quiet(0),
        }
    }

    fn enter_snapshot(&mut self) -> GateAnswer
        ensures { (self.new.state, result) ≡ step self.old.state GateCall.EnterSnapshot }
    {
        let state = self.state;
        if state.commits > 0 {
            return GateAnswer::Held(u32::from(state.commits));
        }
        if state.quiet >= 2 {
            return GateAnswer::Held(u32::from(state.quiet));
        }
        let running = u64::from(state.snaps) + u64::from(state.live);
        if running == 65535 || state.done + running == 1 << 63 {
            return GateAnswer::Spent;
        }
        *self = Gate {
            state: GateState {
                snaps: state.snaps + 1,
                ..state
            },
        };
        GateAnswer::Granted(self.view())
    }

    fn leave_snapshot(&mut self) -> GateAnswer
        requires { MayCall self.old.state GateCall.LeaveSnapshot }
        ensures { (self.new.state, result) ≡ step self.old.state GateCall.LeaveSnapshot }
    {
        let state = self.state;
        *self = Gate {
            state: GateState {
                snaps: state.snaps - 1,
                live: state.live + 1,
                ..state
            },
        };
        GateAnswer::Granted(self.view())
    }

    fn enter_commit(&mut self, tables: u64) -> GateAnswer
        requires { MayCall self.old.state (GateCall.EnterCommit tables) }
        ensures { (self.new.state, result) ≡ step self.old.state (GateCall.EnterCommit tables) }
    {
        let state = self.state;
        if state.snaps > 0 {
            return GateAnswer::Held(u32::from(state.snaps));
        }
        *self = Gate {
            state: GateState {
                commits: state.commits + 1,
                touched: state.touched | tables,
                ..state
            },
        };
        GateAnswer::Granted(self.view())
    }

    fn leave_commit(&mut self) -> GateAnswer
        requires { MayCall self.old.state GateCall.LeaveCommit }
        ensures { (self.new.state, result) ≡ step self.old.state GateCall.LeaveCommit }
    {
        let state = self.state;
        *self = Gate {
            state: GateState {
                commits: state.commits - 1,
                live: state.live - 1,
                done: state.done + 1,
                ..state
            },
        };
        GateAnswer::Granted(self.view())
    }

    fn finish(&mut self) -> GateAnswer
        requires { MayCall self.old.state GateCall.Finish }
        ensures { (self.new.state, result) ≡ step self.old.state GateCall.Finish }
    {
        let state = self.state;
        *self = Gate {
            state: GateState {
                live: state.live - 1,
                ..state
            },
        };
        GateAnswer::Granted(self.view())
    }

    fn detach(&mut self, b: BackendId) -> GateAnswer
        ensures { (self.new.state, result) ≡ step self.old.state (GateCall.Detach b) }
    {
        let state = self.state;
        if !state.attached.has(b) {
            return GateAnswer::Seen(self.view());
        }
        *self = Gate {
            state: GateState {
                attached: state.attached.without(b),
                epoch: state.epoch + 1,
                ..state
            },
        };
        GateAnswer::Granted(self.view())
    }

    fn start_copy(&mut self) -> GateAnswer
        ensures { (self.new.state, result) ≡ step self.old.state GateCall.StartCopy }
    {
        let state = self.state;
        if state.quiet > 0 {
            return GateAnswer::Held(u32::from(state.quiet));
        }
        *self = Gate {
            state: GateState {
                quiet: 1,
                touched: 0,
                ..state
            },
        };
        GateAnswer::Granted(self.view())
    }

    fn enter_quiet(&mut self) -> GateAnswer
        ensures { (self.new.state, result) ≡ step self.old.state GateCall.EnterQuiet }
    {
        let state = self.state;
        let running = u32::from(state.snaps) + u32::from(state.live);
        if running > 0 {
            return GateAnswer::Held(running);
        }
        self.set_quiet(3)
    }

    fn attach(&mut self, b: BackendId) -> GateAnswer
        requires { MayCall self.old.state (GateCall.Attach b) }
        ensures { (self.new.state, result) ≡ step self.old.state (GateCall.Attach b) }
    {
        let state = self.state;
        if state.epoch >= 4_294_967_280 {
            return GateAnswer::Spent;
        }
        *self = Gate {
            state: GateState {
                attached: state.attached.with(b),
                epoch: state.epoch + 1,
                ..state
            },
        };
        GateAnswer::Granted(self.view())
    }

    fn set_quiet(&mut self, quiet: u8) -> GateAnswer
        requires { quiet ≤ 3 }
        ensures state { self.new.state ≡ Rattle.snapshot_gate.specs.Function.with_quiet
            self.old.state quiet }
        ensures answer { result ≡ GateAnswer.Granted (Rattle.snapshot_gate.specs.Function.view_of
            self.new.state) }
    {
        let state = self.state;
        *self = Gate {
            state: GateState { quiet, ..state },
        };
        GateAnswer::Granted(self.view())
    }
}
