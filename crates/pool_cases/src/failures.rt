//! Runs in which one call of the files or of the output fails.
use crate::runs::{Ran, files_of, run_files};
use case_lines::{Around, Told};
use pool_base::{List, NoMemory};
use std::alloc::Global;

/// Runs the script that stands round a case; these calls of the files and of the output fail.
fn ran_with(
    alloc: Global,
    around: &Around,
    files_fail: List<u64>,
    output_fails: List<u64>,
) -> Result<Ran, NoMemory> {
    let mut script = Told::new(alloc);
    around.put_texts("script", &mut script);
    let mut files = files_of(alloc, around, script.as_str(), files_fail)?;
    run_files(alloc, around, &mut files, output_fails)
}

/// The same, where one call of that part fails.
fn ran_without(alloc: Global, around: &Around, part: &str, call: u64) -> Result<Ran, NoMemory> {
    let calls = List::from_slice(alloc, &[call])?;
    if part == "output" {
        ran_with(alloc, around, List::new(alloc), calls)
    } else {
        ran_with(alloc, around, calls, List::new(alloc))
    }
}

/// How much of the whole was written.
fn share_of(part: &[u8], whole: &[u8]) -> &'static str {
    if part.is_empty() {
        "nothing"
    } else if part == whole {
        "all"
    } else if whole.starts_with(part) {
        "a front"
    } else {
        "something else"
    }
}

fn put_ran(ran: &Ran, whole: &Ran, told: &mut Told) {
    told.put_number(u64::from(ran.code));
    told.put(" ");
    told.put(share_of(ran.output.as_slice(), whole.output.as_slice()));
}

fn put_failed(alloc: Global, around: &Around, part: &str, call: u64, told: &mut Told) {
    let Ok(whole) = ran_with(alloc, around, List::new(alloc), List::new(alloc)) else {
        return told.put("no memory");
    };
    match ran_without(alloc, around, part, call) {
        Ok(ran) => put_ran(&ran, &whole, told),
        Err(_) => told.put("no memory"),
    }
}

/// What the script comes to where that call fails: `files 3` or `output 5`.
pub(crate) fn put_failure(alloc: Global, around: &Around, asked: &str, told: &mut Told) {
    let (part, number) = asked.split_once(' ').unwrap_or((asked, ""));
    match number.parse::<u64>() {
        Ok(call) => put_failed(alloc, around, part, call, told),
        Err(_) => told.put("no such call"),
    }
}
