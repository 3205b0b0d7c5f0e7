//! The answers of a chain, in room that is made once.
ghost use Rattle.std.specs.Prelude.{◌≡◌, ◌<◌, ◌≤◌, ◌++◌, ◌∷◌, [], length, vec_len, vec_capacity, IfOk, option_copied};
ghost use Rattle.std.specs.List.{slice_get};
ghost use Rattle.session_engine.specs.Places.{heard_at, rows_in};

use backend_trait::{Answer, Row};
use pool_base::{List, NoMemory};
use session_machine::Heard;
use std::alloc::Global;

/// The answers in the order in which they came, with room for one of each backend.
#[derive(Drop)]
pub struct Answers {
    items: Vec<Heard>,
    ghost roomy: { 8 ≤ vec_capacity items },
}

impl Answers {
    pub(crate) fn new(alloc: Global) -> Result<Answers, NoMemory>
        ensures { IfOk result (λ made. made.items.items ≡ []) }
    {
        let items: Vec<Heard> = Vec::with_capacity(alloc, 8)?;
        Ok(Answers { items })
    }

    /// Where their room was taken.
    pub fn allocator(&self) -> Global {
        *self.items.allocator()
    }

    /// The answers.
    pub fn as_slice(&self) -> &[Heard]
        ensures { result.now ≡ self.now.items.items }
    {
        self.items.as_slice()
    }

    /// The answer at that place.
    pub(crate) fn get(&self, place: usize) -> Option<&Heard>
        ensures { option_copied result ≡ slice_get self.now.items.items place }
    {
        self.items.get(place)
    }

    pub(crate) fn clear(&mut self)
        ensures { self.new.items.items ≡ [] }
    {
        self.items.clear();
    }

    /// Puts an answer behind the others. It takes no memory.
    pub(crate) fn push(&mut self, heard: Heard)
        requires { length self.old.items.items < 8 }
        ensures { self.new.items.items ≡ self.old.items.items ++ heard ∷ [] }
    {
        match self.items.push(heard) {
            Ok(()) => (),
            Err(_) => unreachable!(),
        }
    }

    /// Takes the rows of the answer at that place, and drops the others.
    pub(crate) fn take_rows(&mut self, place: usize) -> List<Row>
        ensures rows { result ≡ rows_in (heard_at self.old.items.items place).answer }
        ensures empty { self.new.items.items ≡ [] }
    {
        let alloc = self.allocator();
        if place >= self.items.len() {
            self.items.clear();
            return List::new(alloc);
        }
        let heard = self.items.remove(place);
        self.items.clear();
        match heard.answer {
            Answer::Rows(rows) => rows,
            Answer::Began
            | Answer::Count(_)
            | Answer::Locked
            | Answer::Done
            | Answer::Serial(_)
            | Answer::Refused(_) => List::new(alloc),
        }
    }
}
