//! What stands round cases: lines of a word and a text.
use crate::repeated::put_expanded;
use crate::told::Told;
use std::alloc::Global;

/// What stands round the cases below it, as lines of a word and a text.
#[derive(Drop)]
pub struct Around {
    lines: Told,
}

impl Around {
    /// Nothing.
    pub(crate) fn new(alloc: Global) -> Around {
        Around {
            lines: Told::new(alloc),
        }
    }

    /// Puts a line behind the others.
    pub(crate) fn add(&mut self, line: &str) {
        put_expanded(line, &mut self.lines);
        self.lines.put("\n");
    }

    /// Puts the texts of a word one behind the other, each with an LF.
    pub fn put_texts(&self, word: &str, onto: &mut Told) {
        for line in self.lines.as_str().lines() {
            if let Some((first, text)) = line.split_once(' ')
                && first == word
            {
                onto.put(text);
                onto.put("\n");
            }
        }
    }
}
