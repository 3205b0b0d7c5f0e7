//! How an operator reads a faulty line. No value is shown of a line without a known name, nor of a
//! password or a verifier.

use crate::fault::{LineFault, Refusal};
use crate::wanted::{Wanted, wanted_of};
use std::{fmt, str};

/// A line as it is shown.
#[derive(Clone, Copy)]
struct Parts<'a> {
    name: &'a str,
    value: &'a str,
}

/// The name and the value of a line, where it has `=`.
fn parts_of(line: &str) -> Option<Parts<'_>> {
    let (name, value) = line.split_once('=')?;
    Some(Parts {
        name: name.trim_ascii(),
        value: value.trim_ascii(),
    })
}

/// What a name's parameter takes, where there is one.
fn takes(name: &str) -> Option<Wanted> {
    wanted_of(name.as_bytes())
}

/// Writes what is told of a line that has `=`.
fn write_parts<W: fmt::Write>(
    f: &mut fmt::Formatter<W>,
    parts: Parts<'_>,
    refusal: Refusal,
) -> fmt::Result {
    let Parts { name, value } = parts;
    match (refusal, takes(name)) {
        (Refusal::UnknownName, _) => {
            write!(f, "{name}: there is no such parameter; drop the line")
        }
        (Refusal::WrongMode, _) => { write!(f, "{name} = {value}: must be {}", Wanted::Mode) }
        (Refusal::Bad, Some(wanted @ (Wanted::Secret | Wanted::Verifier))) => {
            write!(f, "{name}: must be {wanted}")
        }
        (Refusal::Bad, Some(wanted)) => write!(f, "{name} = {value}: must be {wanted}"),
        (Refusal::Bad, None) => f.write_str("must be `name = value`, and maybe a comment"),
    }
}

impl<'a> fmt::Display for LineFault<'a> {
    fn fmt<W: fmt::Write>(&self, f: &mut fmt::Formatter<W>) -> fmt::Result {
        let number = self.number;
        write!(f, "line {number}: ")?;
        match str::from_utf8(self.line) {
            Err(_) => f.write_str("must be a text of UTF-8"),
            Ok(line) => match parts_of(line) {
                Some(parts) => write_parts(f, parts, self.refusal),
                None => f.write_str("must be `name = value`, and maybe a comment"),
            },
        }
    }
}
