//! Command lines and what they are: words with a space between them.
use case_lines::Told;
use pool_command::{Command, read_words};
use std::alloc::{AllocError, Global};

fn words_of<'a>(alloc: Global, line: &'a str) -> Result<Vec<&'a str>, AllocError> {
    let words: Vec<&str> = line.split(' ').collect(alloc)?;
    Ok(words)
}

/// Words with a space before each.
fn put_words(words: &[&str], told: &mut Told) {
    for word in words {
        told.put(" ");
        told.put(*word);
    }
}

fn put_flag(flag: bool, told: &mut Told) {
    told.put(if flag { " true" } else { " false" });
}

fn put_generation(number: u32, size: u32, told: &mut Told) {
    told.put(" ");
    told.put_number(u64::from(number));
    told.put(" ");
    told.put_number(u64::from(size));
}

fn put_found(command: &Command, told: &mut Told) {
    match command {
        Command::Play {
            config,
            schema,
            script,
            journal,
        } => {
            told.put("play");
            put_words(&[config.as_str(), schema.as_str(), script.as_str()], told);
            put_flag(*journal, told);
        }
        Command::Generate {
            config,
            schema,
            number,
            size,
        } => {
            told.put("generate");
            put_words(&[config.as_str(), schema.as_str()], told);
            put_generation(*number, *size, told);
        }
        Command::Serve { config, schema } => {
            told.put("serve");
            put_words(&[config.as_str(), schema.as_str()], told);
        }
    }
}

fn put_answer(alloc: Global, words: &[&str], told: &mut Told) {
    match read_words(alloc, words) {
        Ok(Some(command)) => put_found(&command, told),
        Ok(None) => told.put("none"),
        Err(_) => told.put("no memory"),
    }
}

/// What a line is.
pub(crate) fn put_command(alloc: Global, line: &str, told: &mut Told) {
    match words_of(alloc, line) {
        Ok(words) => put_answer(alloc, words.as_slice(), told),
        Err(_) => told.put("no memory"),
    }
}
