//! Looking for each name of a list, and counting those that are found.
use crate::names::words::Word;
use named_list::NamedList;

/// Whether a word is that, by a walk.
fn is_walked_to(words: &NamedList<Word>, name: &str) -> bool {
    words
        .as_slice()
        .iter()
        .any(|word| word.text.as_str() == name)
}

/// How many words are found by the index, so many times.
pub fn found_times(words: &NamedList<Word>, times: u32) -> u64 {
    let mut total: u64 = 0;
    for done in 0..times {
        for word in words.as_slice() {
            total = total.saturating_add(u64::from(words.has(word.text.as_str())));
        }
    }
    total
}

/// How many words are found by a walk, so many times.
pub fn walked_times(words: &NamedList<Word>, times: u32) -> u64 {
    let mut total: u64 = 0;
    for done in 0..times {
        for word in words.as_slice() {
            total = total.saturating_add(u64::from(is_walked_to(words, word.text.as_str())));
        }
    }
    total
}
