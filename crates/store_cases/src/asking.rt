//! What a session does in a step of a history, as words: `1 insert 7 10`, `2 look`.
use backend_trait::Request;
use catalogue::Checked;
use model_store::{delete_of, insert_of, select_of, serial_insert_of, update_of};
use pool_base::{NoMemory, SessionId};
use std::alloc::Global;

/// What a session asks.
#[derive(Clone, Copy)]
pub(crate) enum Ask {
    Begin,
    Insert(i32, i64),
    /// A row with that value, whose key is drawn.
    Draw(i64),
    /// A new value for a key.
    Update(i32, i64),
    Delete(i32),
    Select(i32),
    /// The row of a key, which is held.
    Hold(i32),
    Lock(u8),
    /// The number that is drawn next.
    Number,
    SetNumber(i64),
    Commit,
    Rollback,
}

/// What a session does.
#[derive(Clone, Copy)]
pub(crate) enum Deed {
    /// It asks, and looks for its answer.
    Ask(Ask),
    /// It asks, and does not look.
    Leave(Ask),
    /// It looks again.
    Look,
}

/// The first word of a text, and what follows.
pub(crate) fn first_word(text: &str) -> (&str, &str) {
    text.split_once(' ').unwrap_or((text, ""))
}

/// The session of that number.
pub(crate) fn session_of(word: &str) -> Option<SessionId> {
    match word.parse::<u32>() {
        Ok(number) => SessionId::from_number(number),
        Err(_) => None,
    }
}

/// The number of a word; 0 where it is none.
fn number_of(word: &str) -> i64 {
    match word.parse::<i64>() {
        Ok(number) => number,
        Err(_) => 0,
    }
}

/// The key of a word; 0 where it is none.
fn key_of(word: &str) -> i32 {
    match word.parse::<i32>() {
        Ok(key) => key,
        Err(_) => 0,
    }
}

/// The table of a word; 0 where it is none.
fn table_of(word: &str) -> u8 {
    match word.parse::<u8>() {
        Ok(table) => table,
        Err(_) => 0,
    }
}

/// What is asked by a word, and a key and a value behind it.
fn ask_of(words: &str) -> Option<Ask> {
    let (verb, rest) = first_word(words);
    let (first, rest) = first_word(rest);
    let (second, _) = first_word(rest);
    match verb {
        "begin" => Some(Ask::Begin),
        "insert" => Some(Ask::Insert(key_of(first), number_of(second))),
        "draw" => Some(Ask::Draw(number_of(first))),
        "update" => Some(Ask::Update(key_of(first), number_of(second))),
        "delete" => Some(Ask::Delete(key_of(first))),
        "select" => Some(Ask::Select(key_of(first))),
        "hold" => Some(Ask::Hold(key_of(first))),
        "lock" => Some(Ask::Lock(table_of(first))),
        "number" => Some(Ask::Number),
        "set" => Some(Ask::SetNumber(number_of(first))),
        "commit" => Some(Ask::Commit),
        "rollback" => Some(Ask::Rollback),
        _ => None,
    }
}

/// What is done by these words: a request, `leave` and a request, or `look`.
pub(crate) fn deed_of(words: &str) -> Option<Deed> {
    if words == "look" {
        return Some(Deed::Look);
    }
    match words.strip_prefix("leave ") {
        Some(left) => match ask_of(left) {
            Some(ask) => Some(Deed::Leave(ask)),
            None => None,
        },
        None => match ask_of(words) {
            Some(ask) => Some(Deed::Ask(ask)),
            None => None,
        },
    }
}

/// The request that runs a statement.
fn run_of(statement: Result<Checked, NoMemory>) -> Result<Request, NoMemory> {
    match statement {
        Ok(checked) => Ok(Request::Run(checked)),
        Err(_) => Err(NoMemory),
    }
}

/// The request of a store.
pub(crate) fn request_of(alloc: Global, ask: Ask) -> Result<Request, NoMemory> {
    match ask {
        Ask::Begin => Ok(Request::TakeSnapshot),
        Ask::Insert(key, value) => run_of(insert_of(alloc, key, value)),
        Ask::Draw(value) => run_of(serial_insert_of(alloc, value)),
        Ask::Update(key, value) => run_of(update_of(alloc, key, value)),
        Ask::Delete(key) => run_of(delete_of(alloc, key)),
        Ask::Select(key) => run_of(select_of(alloc, key, false)),
        Ask::Hold(key) => run_of(select_of(alloc, key, true)),
        Ask::Lock(table) => Ok(Request::Lock(table)),
        Ask::Number => Ok(Request::ReadSerial(0)),
        Ask::SetNumber(next) => Ok(Request::SetSerial(0, next)),
        Ask::Commit => Ok(Request::Commit),
        Ask::Rollback => Ok(Request::Rollback),
    }
}
