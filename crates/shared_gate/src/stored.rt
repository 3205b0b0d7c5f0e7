//! The gate as its cell keeps it: in eight words.
ghost use Rattle.std.specs.Prelude.{◌≡◌};
ghost use Rattle.snapshot_gate.specs.declared.gate.Gate.{Gate};
ghost use Rattle.shared_gate.specs.Words.{words_of};
ghost use Rattle.snapshot_gate.specs.Function.{first, step, MayCall};

use crossbeam_utils::atomic::Words;
use pool_base::{BackendSet, GateAnswer, GateCall};
use snapshot_gate::{Gate, GateState};

/// A gate in a cell. It has the facts of `Gate`.
#[derive(Clone, Copy, PartialEq, Eq)]
pub struct Stored {
    pub gate: Gate,
}

impl Stored {
    /// The gate at the start.
    pub fn new(attached: BackendSet) -> Stored
        ensures { result.gate.state ≡ first attached }
    {
        Stored {
            gate: Gate::new(attached),
        }
    }

    /// One call, with its answer.
    pub fn step(&mut self, call: GateCall) -> GateAnswer
        requires { MayCall self.old.gate.state call }
        ensures { (self.new.gate.state, result) ≡ step self.old.gate.state call }
    {
        self.gate.step(call)
    }
}

impl Words<8> for Stored {
    ghost use Rattle.shared_gate.specs.Words.{words_of};

    ghost words = { λ s. words_of s.gate };

    fn to_words(self) -> [u64; 8] {
        let state = self.gate.state;
        [
            u64::from(state.attached.bits),
            u64::from(state.epoch),
            u64::from(state.snaps),
            u64::from(state.commits),
            u64::from(state.live),
            u64::from(state.quiet),
            state.done,
            state.touched,
        ]
    }

    fn from_words(bits: &[u64; 8]) -> Stored {
        Stored {
            gate: gate_of(bits),
        }
    }
}

/// The gate that has these words.
fn gate_of(bits: &[u64; 8]) -> Gate
    requires { (x : Gate) × (bits.now ≡ words_of x) }
    ensures { (x : Gate) → bits.now ≡ words_of x → result ≡ x }
{
    Gate {
        state: GateState {
            attached: BackendSet {
                bits: bits[0] as u8,
            },
            epoch: bits[1] as u32,
            snaps: bits[2] as u16,
            commits: bits[3] as u16,
            live: bits[4] as u16,
            quiet: bits[5] as u8,
            done: bits[6],
            touched: bits[7],
        },
    }
}
