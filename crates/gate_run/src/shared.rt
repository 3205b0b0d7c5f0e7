//! Transactions of many threads at the gate that they share.
ghost use Rattle.std.specs.Prelude.{◌≡◌, ◌+◌, ◌<◌, ◌≤◌, true, false};
ghost use Rattle.std.specs.Thread.{IsSync};
ghost use Rattle.shared_gate.specs.History.{stand_of, copy_of, stand_by};
ghost use Rattle.gate_run.specs.Work.{IsOutAt, MayWork};

use pool_base::{GateAnswer, GateCall};
use shared_gate::{Pass, SharedGate};
use std::sync::Wait;
use std::thread;
use std::thread::{Threads, join};

/// The pass splits into as many as there are threads, each of which makes so many transactions, and
/// they are joined again.
pub fn crowd<R: Threads + Wait + Sync>(
    rt: &R,
    gate: &SharedGate,
    mut pass: Pass,
    doublings: u32,
    rounds: u32,
) -> Pass
    requires out { IsOutAt gate.now pass }
    ensures out { IsOutAt gate.now result }
{
    if doublings == 0 {
        return work(rt, gate, pass, rounds);
    }
    let less = doublings - 1;
    let other = gate.split(&mut pass);
    let (mut one, two) = join(
        rt,
        || -> Pass
            requires { IsSync R.row × IsOutAt gate.now pass }
            ensures { IsOutAt gate.entry.now result }
        { crowd(rt, gate, pass, less, rounds) },
        || -> Pass
            requires { IsSync R.row × IsOutAt gate.now other }
            ensures { IsOutAt gate.entry.now result }
        { crowd(rt, gate, other, less, rounds) },
    );
    gate.join(rt, &mut one, two);
    one
}

/// Many transactions, one after the other.
fn work<R: Wait>(rt: &R, gate: &SharedGate, mut pass: Pass, rounds: u32) -> Pass
    requires out { IsOutAt gate.now pass }
    ensures out { IsOutAt gate.now result }
{
    for _ in 0..rounds {
        transaction(rt, gate, &mut pass);
    }
    pass
}

fn transaction<R: Wait>(rt: &R, gate: &SharedGate, pass: &mut Pass)
    requires out { IsOutAt gate.now pass.old }
    ensures out { IsOutAt gate.now pass.new }
{
    until_granted(rt, gate, pass, GateCall::EnterSnapshot);
    until_granted(rt, gate, pass, GateCall::LeaveSnapshot);
    until_granted(rt, gate, pass, GateCall::EnterCommit { tables: 5 });
    until_granted(rt, gate, pass, GateCall::LeaveCommit);
}

/// Makes a call again and again until it is granted.
fn until_granted<R: Wait>(rt: &R, gate: &SharedGate, pass: &mut Pass, call: GateCall)
    requires gate { pass.old.gate ≡ gate.now }
    requires may { MayWork (stand_of pass.old.mine) call }
    ensures gate { pass.new.gate ≡ pass.old.gate }
    ensures stand { stand_of pass.new.mine ≡ stand_by (stand_of pass.old.mine) call }
    ensures copy { copy_of pass.new.mine ≡ copy_of pass.old.mine }
{
    for _ in rt.forever() {
        if let GateAnswer::Granted(_) = gate.step(rt, pass, call) {
            return;
        }
        thread::yield_now();
    }
    unreachable!()
}
