//! A run over files and an output in memory.
use case_lines::{Around, Told, bytes_of};
use pool_base::{List, MemoryFiles, MemorySink, NoMemory, Text};
use pool_run::run_over_stores;
use std::alloc::Global;

/// What a run comes to: its status, and what was written.
#[derive(Drop)]
pub(crate) struct Ran {
    pub code: u8,
    pub output: List<u8>,
}

/// The names of the three files.
fn names_of(alloc: Global) -> Result<List<Text>, NoMemory> {
    let mut names = List::new(alloc);
    for name in ["config", "schema", "script"] {
        names.push(Text::from_str(alloc, name)?)?;
    }
    Ok(names)
}

/// The bytes of a file whose lines stand round a case.
fn content_of(alloc: Global, around: &Around, word: &str) -> Result<List<u8>, NoMemory> {
    let mut text = Told::new(alloc);
    around.put_texts(word, &mut text);
    bytes_of(alloc, text.as_str())
}

/// The contents of the three files.
fn contents_of(alloc: Global, around: &Around, script: &str) -> Result<List<List<u8>>, NoMemory> {
    let mut contents = List::new(alloc);
    contents.push(content_of(alloc, around, "config")?)?;
    contents.push(content_of(alloc, around, "schema")?)?;
    contents.push(bytes_of(alloc, script)?)?;
    Ok(contents)
}

/// The files `config` and `schema`, as they stand round a case, and `script`. The calls of these
/// numbers fail.
pub(crate) fn files_of(
    alloc: Global,
    around: &Around,
    script: &str,
    fails: List<u64>,
) -> Result<MemoryFiles, NoMemory> {
    let names = names_of(alloc)?;
    let contents = contents_of(alloc, around, script)?;
    Ok(MemoryFiles::new(names, contents, fails))
}

/// The number that stands round a case behind that word, as the list of one call; else no call.
fn call_of(alloc: Global, around: &Around, word: &str) -> Result<List<u64>, NoMemory> {
    let mut text = Told::new(alloc);
    around.put_texts(word, &mut text);
    let mut calls = List::new(alloc);
    if let Ok(call) = text.as_str().trim().parse::<u64>() {
        calls.push(call)?;
    }
    Ok(calls)
}

/// Puts the command line that stands round a case, or the one that plays the script.
fn put_line(around: &Around, told: &mut Told) {
    around.put_texts("words", told);
    if told.is("") {
        told.put("play config schema script");
    }
}

/// Runs the command line over the files; the calls of these numbers of the output fail.
pub(crate) fn run_files(
    alloc: Global,
    around: &Around,
    files: &mut MemoryFiles,
    fails: List<u64>,
) -> Result<Ran, NoMemory> {
    let mut line = Told::new(alloc);
    put_line(around, &mut line);
    let words: Vec<&str> = line.as_str().trim().split(' ').collect(alloc)?;
    let mut out = MemorySink::new(alloc, fails);
    let code = run_over_stores(alloc, words.as_slice(), files, &mut out)?;
    let output = List::from_slice(alloc, out.taken_bytes())?;
    Ok(Ran { code, output })
}

/// Runs a script; the call of the files that stands round it fails.
fn ran_script(alloc: Global, around: &Around, script: &str) -> Result<Ran, NoMemory> {
    let fails = call_of(alloc, around, "files")?;
    let mut files = files_of(alloc, around, script, fails)?;
    run_files(alloc, around, &mut files, List::new(alloc))
}

/// What a script comes to: the status and what was written.
pub(crate) fn put_run(alloc: Global, around: &Around, script: &str, told: &mut Told) {
    match ran_script(alloc, around, script) {
        Ok(ran) => {
            told.put_number(u64::from(ran.code));
            if !ran.output.is_empty() {
                told.put(" ");
            }
            told.put_escaped(ran.output.as_slice());
        }
        Err(_) => told.put("no memory"),
    }
}
