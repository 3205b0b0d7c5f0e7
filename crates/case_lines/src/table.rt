//! A table: lines `ASKED => TOLD`, and lines that say what stands round those below them.
use crate::around::Around;
use crate::repeated::put_expanded;
use crate::told::Told;
use std::alloc::Global;
use std::rt::{Env, Files};
use std::{env, fs, io};

/// What answers the cases of a program.
pub trait Kinds {
    /// Puts what is told of what is asked, in a table of that kind, with what stands round it.
    fn put_answer(alloc: Global, kind: &str, around: &Around, asked: &str, told: &mut Told);
}

/// Puts a line that is answered otherwise, and how.
fn put_other(line: &str, answer: &str, said: &mut Told) {
    said.put(line);
    said.put("\n  but: ");
    said.put(answer);
    said.put("\n");
}

/// What is asked in a line and what is to be told.
fn parts_of(line: &str) -> Option<(&str, &str)> {
    match line.split_once(" => ") {
        Some(parts) => Some(parts),
        None => match line.strip_suffix(" =>") {
            Some(asked) => Some((asked, "")),
            None => None,
        },
    }
}

/// Asks, and says where the answer is another than the line has, or the one that it must not be.
fn put_asked<K: Kinds>(alloc: Global, kind: &str, around: &Around, line: &str, said: &mut Told) {
    let Some((asked, wanted)) = parts_of(line) else {
        return put_other(line, "no case", said);
    };
    let is_wrong = asked.starts_with("! ");
    let mut whole = Told::new(alloc);
    put_expanded(asked.strip_prefix("! ").unwrap_or(asked), &mut whole);
    let mut right = Told::new(alloc);
    put_expanded(wanted, &mut right);
    let mut told = Told::new(alloc);
    K::put_answer(alloc, kind, around, whole.as_str(), &mut told);
    if told.is_cut() || told.is(right.as_str()) == is_wrong {
        put_other(line, told.as_str(), said);
    }
}

/// Whether a line has a case.
fn is_case(line: &str) -> bool {
    !line.is_empty() && !line.starts_with('#')
}

/// What stands round the cases below a line `@ ..`: `@` alone, nothing.
fn around_after(alloc: Global, around: Around, line: &str) -> Around {
    let mut around = around;
    match line.strip_prefix("@ ") {
        Some(words) => {
            around.add(words);
            around
        }
        None => Around::new(alloc),
    }
}

/// What is said of a table: each case that is answered otherwise, and the number of all.
///
/// The part of the name before its first `.` tells its kind.
pub fn run_table<K: Kinds>(alloc: Global, name: &str, text: &str) -> Told {
    let kind = name.split('.').next().unwrap_or(name);
    let mut around = Around::new(alloc);
    let mut said = Told::new(alloc);
    let mut count = 0u64;
    for line in text.lines() {
        if line.starts_with('@') {
            around = around_after(alloc, around, line);
        } else if is_case(line) {
            put_asked::<K>(alloc, kind, &around, line, &mut said);
            count = count.saturating_add(1);
        }
    }
    said.put(name);
    said.put(": ");
    said.put_number(count);
    said.put(" cases\n");
    said
}

/// Reads the tables that the words of the command line name, and prints what is said of each.
pub fn run_tables<K: Kinds>(rt: &(impl Env + Files + Print + Alloc<A = Global>)) -> io::Result<()> {
    for name in env::args(rt)?.skip(1) {
        let text = fs::read_to_string(rt, name.as_str())?;
        let said = run_table::<K>(rt.alloc(), name.as_str(), text.as_str());
        print!(rt; "{}", said.as_str())?;
    }
    Ok(())
}
