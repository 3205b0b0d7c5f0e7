//! What a list of names answers.
use crate::{Named, NamedList};
use pool_base::{NoMemory, Text};
use std::alloc::Global;

#[derive(Debug, PartialEq, Eq, Drop)]
struct Word {
    text: Text,
}

impl Named for Word {
    ghost name_of = { λ word. word.text };

    fn name(&self) -> &str {
        self.text.as_str()
    }
}

const WORDS: [&str; 5] = ["id", "name", "", "id", "naïve"];

fn words(alloc: Global) -> Result<NamedList<Word>, NoMemory> {
    let mut words = NamedList::new(alloc);
    for text in WORDS {
        words.push(Word {
            text: Text::from_str(alloc, text)?,
        })?;
    }
    Ok(words)
}

/// Names, and the number of the first word that is it, or 9 where there is none.
const FOUND: [(&str, usize); 8] = [
    ("id", 0),
    ("name", 1),
    ("", 2),
    ("naïve", 4),
    ("i", 9),
    ("ids", 9),
    ("ID", 9),
    ("naive", 9),
];

fn number_of(words: &NamedList<Word>, name: &str) -> usize {
    match words.find(name) {
        Some((number, word)) => {
            if word.text.as_str() == name {
                number
            } else {
                8
            }
        }
        None => 9,
    }
}

#[test]
fn the_first_word_of_a_name_is_found(rt: HostRuntime) -> Result<(), NoMemory> {
    let words = words(rt.alloc())?;
    for (name, number) in FOUND {
        assert!(rt; number_of(&words, name) == number);
        assert!(rt; words.has(name) == (number != 9));
    }
    Ok(())
}

#[test]
fn words_stay_in_their_order(rt: HostRuntime) -> Result<(), NoMemory> {
    let words = words(rt.alloc())?;
    assert!(rt; words.len() == 5 && words.as_slice().len() == 5);
    assert!(rt; words == words);
    assert!(rt; words.get(5).is_none());
    match words.get(3) {
        Some(word) => assert!(rt; word.text.as_str() == "id"),
        None => assert!(rt; false),
    }
    Ok(())
}
