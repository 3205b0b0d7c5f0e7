//! Histories of several sessions of a store, step by step.
use crate::both::Both;
use case_lines::{Around, Told};
use std::alloc::Global;

/// Puts what each step is told.
fn put_steps(both: &mut Both, steps: &str, told: &mut Told) {
    let mut is_front = true;
    for step in steps.split(", ") {
        if !is_front {
            told.put(", ");
        }
        both.put_step(step, told);
        is_front = false;
    }
}

/// Plays the steps of the lines `@ so`. Puts what they are told only where some of it is wrong.
fn play_before(alloc: Global, around: &Around, both: &mut Both, told: &mut Told) {
    let mut lines = Told::new(alloc);
    around.put_texts("so", &mut lines);
    let mut before = Told::new(alloc);
    for line in lines.as_str().lines() {
        put_steps(both, line, &mut before);
    }
    if before.as_str().contains('(') {
        told.put(before.as_str());
    }
}

/// Puts what the steps are told behind those of the lines `@ so`.
pub(crate) fn put_history(alloc: Global, around: &Around, steps: &str, told: &mut Told) {
    match Both::new(alloc) {
        Ok(mut both) => {
            play_before(alloc, around, &mut both, told);
            put_steps(&mut both, steps, told);
            drop(both);
        }
        Err(_) => told.put("no memory"),
    }
}
