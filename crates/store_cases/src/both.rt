//! The store in memory, and the plain store that judges what it tells.
use crate::asking::{Ask, Deed, deed_of, first_word, request_of, session_of};
use crate::judge::is_right;
use crate::shown::put_polled;
use backend_trait::{Backend, Polled, Posted, Request};
use case_lines::Told;
use model_store::{MemoryStore, trial_tables};
use plain_store::{Database, may_post};
use pool_base::{NoMemory, SessionId};
use std::alloc::Global;

/// Both stores.
#[derive(Drop)]
pub(crate) struct Both {
    alloc: Global,
    memory: MemoryStore,
    plain: Database,
}

impl Both {
    /// Two stores of the table for trials, without rows.
    pub fn new(alloc: Global) -> Result<Both, NoMemory> {
        let tables = trial_tables(alloc)?;
        let mut memory = MemoryStore::new(alloc)?;
        memory.prepare(&tables)?;
        Ok(Both {
            alloc,
            memory,
            plain: Database::new(alloc, tables)?,
        })
    }

    /// The session asks both stores. The answer: whether that was taken. What goes wrong is put.
    fn post_both(
        &mut self,
        s: SessionId,
        request: Request,
        same: Request,
        told: &mut Told,
    ) -> bool {
        let plain_may = may_post(&self.plain, s, &same);
        if !self.memory.may_post(s, &request) {
            drop(request);
            drop(same);
            told.put(if plain_may {
                "may not (wrong)"
            } else {
                "may not"
            });
            return false;
        }
        match self.memory.post(s, request) {
            Posted::Accepted => {}
            Posted::NoMemory(back) => {
                drop(back);
                drop(same);
                told.put("(no memory)");
                return false;
            }
        }
        if plain_may {
            self.plain.post(s, same);
            return true;
        }
        drop(same);
        told.put("(may not)");
        false
    }

    /// The session asks. The answer: whether that was taken.
    fn post(&mut self, s: SessionId, ask: Ask, told: &mut Told) -> bool {
        let Ok(request) = request_of(self.alloc, ask) else {
            told.put("(no memory)");
            return false;
        };
        match request_of(self.alloc, ask) {
            Ok(same) => self.post_both(s, request, same, told),
            Err(_) => {
                drop(request);
                told.put("(no memory)");
                false
            }
        }
    }

    /// The plain store judges what was told, and does it. What is wrong is put in brackets.
    fn judge(&mut self, s: SessionId, polled: &Polled, told: &mut Told) {
        match is_right(&self.plain, s, polled) {
            Ok(true) => {}
            Ok(false) => told.put(" (wrong)"),
            Err(_) => told.put(" (no memory)"),
        }
        if let Polled::Answered(answer) = polled
            && self.plain.act(s, answer).is_err()
        {
            told.put(" (no memory)");
        }
        if self.memory.serial_of(0) != self.plain.numbers.at(0) {
            told.put(" (another number is next)");
        }
    }

    /// The session looks for its answer.
    fn poll(&mut self, s: SessionId, told: &mut Told) {
        if !self.memory.is_pending(s) {
            return told.put("idle");
        }
        let polled = self.memory.poll(s);
        put_polled(&polled, told);
        self.judge(s, &polled, told);
        drop(polled);
    }

    /// Does that in both stores, and puts what is told.
    fn put_deed(&mut self, s: SessionId, deed: Deed, told: &mut Told) {
        match deed {
            Deed::Look => self.poll(s, told),
            Deed::Leave(ask) => {
                if self.post(s, ask, told) {
                    told.put("asked");
                }
            }
            Deed::Ask(ask) => {
                if self.post(s, ask, told) {
                    self.poll(s, told);
                }
            }
        }
    }

    fn lose(&mut self) {
        self.memory.lose();
        self.plain.lose();
    }

    fn put_words(&mut self, s: SessionId, words: &str, told: &mut Told) {
        match deed_of(words) {
            Some(deed) => self.put_deed(s, deed, told),
            None => told.put("no such request"),
        }
    }

    /// Does a step, `SESSION WORDS` or `lose`, and puts what is told.
    pub fn put_step(&mut self, step: &str, told: &mut Told) {
        if step == "lose" {
            self.lose();
            return told.put("lost");
        }
        let (number, words) = first_word(step);
        match session_of(number) {
            Some(s) => self.put_words(s, words, told),
            None => told.put("no such session"),
        }
    }
}
