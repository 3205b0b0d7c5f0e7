//! The plain store alone: what the sessions 1 and 2 may be answered.
// PostgreSQL's manual, "Transaction Isolation" (repeatable read) and "Explicit Locking"
// (deadlocks): the first updater of a row wins, a row that another holds is waited for, and of two
// that wait for one another one is refused.
use crate::asking::{Ask, Deed, deed_of, first_word, request_of, session_of};
use backend_trait::Answer;
use case_lines::{Around, Told};
use model_store::trial_tables;
use plain_store::{Database, is_crossed, is_held_up, is_in_cycle, may_act, may_post};
use pool_base::{Code, NoMemory, SessionId};
use std::alloc::Global;

/// What a session is told that begins, writes one row or ends.
fn reply_to(ask: Ask) -> Answer {
    match ask {
        Ask::Begin => Answer::Began,
        Ask::Insert(_, _) => Answer::Count(1),
        _ => Answer::Done,
    }
}

/// The session asks, where it may.
fn post(alloc: Global, store: &mut Database, s: SessionId, ask: Ask, told: &mut Told) {
    let Ok(request) = request_of(alloc, ask) else {
        return told.put("no memory");
    };
    if may_post(store, s, &request) {
        store.post(s, request);
    } else {
        drop(request);
        told.put("may not ask; ");
    }
}

/// The session is answered, where it may be.
fn answer(store: &mut Database, s: SessionId, answer: &Answer, told: &mut Told) {
    match may_act(store, s, answer) {
        Ok(true) => {
            if store.act(s, answer).is_err() {
                told.put("no memory");
            }
        }
        Ok(false) => told.put("may not be answered; "),
        Err(_) => told.put("no memory"),
    }
}

fn ask(alloc: Global, store: &mut Database, s: SessionId, ask: Ask, told: &mut Told) {
    post(alloc, store, s, ask, told);
    let reply = reply_to(ask);
    answer(store, s, &reply, told);
    drop(reply);
}

fn play_words(alloc: Global, store: &mut Database, s: SessionId, words: &str, told: &mut Told) {
    match deed_of(words) {
        Some(Deed::Ask(what)) => ask(alloc, store, s, what, told),
        Some(Deed::Leave(what)) => post(alloc, store, s, what, told),
        Some(Deed::Look) | None => told.put("no such request; "),
    }
}

/// Plays a step: `lose`, `mark` of session 2, a request with its answer, or one that is left.
fn play_step(alloc: Global, store: &mut Database, step: &str, told: &mut Told) {
    if step == "lose" {
        return store.lose();
    }
    if step == "2 mark" {
        store.crossed[2] = true;
        return;
    }
    let (number, words) = first_word(step);
    match session_of(number) {
        Some(s) => play_words(alloc, store, s, words, told),
        None => told.put("no such session; "),
    }
}

fn play_steps(alloc: Global, store: &mut Database, steps: &str, told: &mut Told) {
    for step in steps.split(", ") {
        play_step(alloc, store, step, told);
    }
}

fn put_if(is: Result<bool, NoMemory>, word: &str, told: &mut Told) {
    match is {
        Ok(true) => {
            told.put(" ");
            told.put(word);
        }
        Ok(false) => {}
        Err(_) => told.put(" no memory"),
    }
}

/// Puts the word where the session may be answered that.
fn put_may(store: &Database, s: SessionId, answer: &Answer, word: &str, told: &mut Told) {
    put_if(may_act(store, s, answer), word, told);
}

/// Puts the code where the session may be refused with it.
fn put_may_refuse(store: &Database, s: SessionId, code: Code, word: &str, told: &mut Told) {
    let refused = Answer::Refused(code);
    put_may(store, s, &refused, word, told);
    drop(refused);
}

/// Puts how a session stands, and what it may be answered.
fn put_session(store: &Database, s: SessionId, told: &mut Told) {
    told.put_number(u64::from(s.number));
    told.put(":");
    put_if(is_held_up(store, s), "waits", told);
    put_if(is_in_cycle(store, s), "cycle", told);
    put_if(is_crossed(store, s), "crossed", told);
    let one = Answer::Count(1);
    put_may(store, s, &one, "count 1", told);
    drop(one);
    put_may_refuse(store, s, Code { bytes: *b"40001" }, "40001", told);
    put_may_refuse(store, s, Code { bytes: *b"40P01" }, "40P01", told);
}

fn put_told(alloc: Global, store: &mut Database, around: &Around, steps: &str, told: &mut Told) {
    let mut lines = Told::new(alloc);
    around.put_texts("so", &mut lines);
    for line in lines.as_str().lines() {
        play_steps(alloc, store, line, told);
    }
    play_steps(alloc, store, steps, told);
    put_session(store, SessionId { number: 1 }, told);
    told.put(", ");
    put_session(store, SessionId { number: 2 }, told);
}

/// Plays the steps behind those of the lines `@ so`, and puts how the sessions 1 and 2 stand.
pub(crate) fn put_plain(alloc: Global, around: &Around, steps: &str, told: &mut Told) {
    let Ok(tables) = trial_tables(alloc) else {
        return told.put("no memory");
    };
    match Database::new(alloc, tables) {
        Ok(mut store) => {
            put_told(alloc, &mut store, around, steps, told);
            drop(store);
        }
        Err(_) => told.put("no memory"),
    }
}
