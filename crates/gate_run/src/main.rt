//! Eight threads that open and commit transactions at one gate: `gate_run ROUNDS` has each of them
//! make so many, at the gate that threads share and then at one under a lock. What the gates hold
//! at the end goes to standard output, and the times to standard error.
#![tactic(auto)]

mod locked;
mod shared;
mod timing;

use crate::timing::run;
use std::process::ExitCode;
use std::{env, io};

/// The rounds that the words ask for, if they are one number.
fn rounds_of(words: &[String]) -> Option<u32> {
    let [_program, word] = words else {
        return None;
    };
    word.as_str().parse::<u32>().ok()
}

fn main(rt: HostRuntime) -> io::Result<ExitCode> {
    let mut words = Vec::new(rt.alloc());
    for word in env::args(&rt)? {
        words.push(word)?;
    }
    let Some(rounds) = rounds_of(words.as_slice()) else {
        eprintln!(rt; "usage: gate_run ROUNDS")?;
        return Ok(ExitCode::from(1));
    };
    run(rt, &rt, rounds)?;
    Ok(ExitCode::from(0))
}
