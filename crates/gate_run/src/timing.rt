//! The runs that are timed, and what is told of them.
use crate::{locked, shared};
use pool_base::{BackendSet, GateAnswer, GateCall, NoMemory};
use shared_gate::SharedGate;
use snapshot_gate::Gate;
use std::io;
use std::sync::{Mutex, Wait};
use std::thread::Threads;
use std::time::{Duration, Instant};

/// The threads are two to this power.
const DOUBLINGS: u32 = 3;

/// The backends that are attached.
const ATTACHED: BackendSet = BackendSet { bits: 7 };

/// Eight threads make so many transactions each, at the shared gate and then at one under a lock.
pub fn run<R: Threads + Wait + Sync>(rt: HostRuntime, threads: &R, rounds: u32) -> io::Result<()> {
    run_shared(rt, threads, rounds)?;
    run_locked(rt, threads, rounds)
}

fn run_shared<R: Threads + Wait + Sync>(
    rt: HostRuntime,
    threads: &R,
    rounds: u32,
) -> io::Result<()> {
    let (gate, pass) = match SharedGate::new(threads, rt.alloc(), ATTACHED) {
        Ok(made) => made,
        Err(NoMemory) => return Err(io::ErrorKind::OutOfMemory.into()),
    };
    let start = Instant::now(&rt)?;
    let mut pass = shared::crowd(threads, &gate, pass, DOUBLINGS, rounds);
    let time = start.elapsed(&rt)?;
    let answer = gate.step(threads, &mut pass, GateCall::Look);
    tell(rt, "shared", answer, rounds, time)
}

fn run_locked<R: Threads + Wait + Sync>(
    rt: HostRuntime,
    threads: &R,
    rounds: u32,
) -> io::Result<()> {
    let gate = Mutex::new(Gate::new(ATTACHED));
    let start = Instant::now(&rt)?;
    locked::crowd(threads, &gate, DOUBLINGS, rounds);
    let time = start.elapsed(&rt)?;
    let answer = locked::step(threads, &gate, GateCall::Look);
    tell(rt, "under a lock", answer, rounds, time)
}

/// Tells what the gate holds, and the time of a granted call.
fn tell(
    rt: HostRuntime,
    which: &str,
    answer: GateAnswer,
    rounds: u32,
    time: Duration,
) -> io::Result<()> {
    if let GateAnswer::Seen(view) = answer {
        println!(rt;
            "{which}: done {}, attached {}, epoch {}, touched {}",
            view.done, view.attached.bits, view.epoch, view.touched
        )?;
    }
    let calls = u128::from(rounds) * 32;
    let each = time.as_nanos() / calls.max(1);
    let all = time.as_micros();
    eprintln!(rt; "{which}: {calls} granted calls in {all} microseconds, {each} nanoseconds each")
}
