//! The lists that are measured.
use named_list::{Named, NamedList};
use pool_base::{NoMemory, Text};
use std::alloc::Global;

/// A thing that has a name, and nothing else.
#[derive(Debug, Drop)]
pub struct Word {
    pub text: Text,
}

impl Named for Word {
    ghost name_of = { λ word. word.text };

    fn name(&self) -> &str {
        self.text.as_str()
    }
}

/// So many words, `column_0` and on.
pub fn words_of(alloc: Global, count: u32) -> Result<NamedList<Word>, NoMemory> {
    let mut words = NamedList::new(alloc);
    for number in 0..count {
        let text = Text::from_string(format!(in alloc; "column_{number}")?);
        words.push(Word { text })?;
    }
    Ok(words)
}
