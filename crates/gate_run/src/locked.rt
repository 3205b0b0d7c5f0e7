//! Transactions of many threads at a gate under a lock.
ghost use Rattle.std.specs.Prelude.{◌≡◌, ◌+◌, ◌<◌, ◌≤◌, true, false};
ghost use Rattle.std.specs.Thread.{IsSync};
ghost use Rattle.snapshot_gate.specs.Function.{MayCall};

use pool_base::{GateAnswer, GateCall};
use snapshot_gate::Gate;
use std::sync::{Mutex, Wait};
use std::thread;
use std::thread::{Threads, join};

/// Each of the threads makes so many transactions.
pub fn crowd<R: Threads + Wait + Sync>(rt: &R, gate: &Mutex<Gate>, doublings: u32, rounds: u32) {
    if doublings == 0 {
        return work(rt, gate, rounds);
    }
    let less = doublings - 1;
    join(
        rt,
        || -> ()
            requires { IsSync R.row }
        { crowd(rt, gate, less, rounds) },
        || -> ()
            requires { IsSync R.row }
        { crowd(rt, gate, less, rounds) },
    );
}

/// Many transactions, one after the other.
fn work<R: Wait>(rt: &R, gate: &Mutex<Gate>, rounds: u32) {
    for _ in 0..rounds {
        transaction(rt, gate);
    }
}

fn transaction<R: Wait>(rt: &R, gate: &Mutex<Gate>) {
    until_granted(rt, gate, GateCall::EnterSnapshot);
    until_granted(rt, gate, GateCall::LeaveSnapshot);
    until_granted(rt, gate, GateCall::EnterCommit { tables: 5 });
    until_granted(rt, gate, GateCall::LeaveCommit);
}

/// Makes a call again and again until it is granted.
fn until_granted<R: Wait>(rt: &R, gate: &Mutex<Gate>, call: GateCall) {
    for _ in rt.forever() {
        if let GateAnswer::Granted(_) = step(rt, gate, call) {
            return;
        }
        thread::yield_now();
    }
    unreachable!()
}

/// One call under the lock. One whose condition does not hold answers `Spent`: who holds the lock
/// knows nothing of the calls before it.
pub fn step<R: Wait>(rt: &R, gate: &Mutex<Gate>, call: GateCall) -> GateAnswer {
    let mut gate = gate.lock(rt);
    if may(&gate, call) {
        gate.step(call)
    } else {
        GateAnswer::Spent
    }
}

/// Whether a session's call meets its condition on the state.
fn may(gate: &Gate, call: GateCall) -> bool
    ensures { result ≡ true → MayCall gate.now.state call }
{
    let state = gate.state;
    match call {
        GateCall::Look | GateCall::EnterSnapshot => true,
        GateCall::LeaveSnapshot => state.snaps > 0,
        GateCall::EnterCommit { .. } | GateCall::Finish => state.commits < state.live,
        GateCall::LeaveCommit => state.commits > 0,
        _ => false,
    }
}
