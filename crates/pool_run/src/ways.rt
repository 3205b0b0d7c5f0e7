//! How a script is played: as the single statements of one client, or as sessions over the wire.
ghost use Rattle.std.specs.Prelude.{◌≡◌, false, map};
ghost use Rattle.std.specs.List.{list_all};
ghost use Rattle.pgproto.specs.Line.{line_of};
ghost use Rattle.pool_run.specs.Ways.{is_blank, unblanked, begins_with, begins_own, goes_on, is_single, is_single_line};

use pgproto::ScriptLine;

/// Whether a byte is a blank of SQL.
fn is_blank(byte: u8) -> bool
    ensures { result ≡ is_blank byte }
{
    byte == 32 || byte == 9 || byte == 10 || byte == 12 || byte == 13
}

/// The text behind its first blanks.
fn unblanked(text: &[u8]) -> &[u8]
    ensures { result.now ≡ unblanked text.now }
{
    let mut rest = text;
    while let [byte, after @ ..] = rest {
        if !is_blank(*byte) {
            return rest;
        }
        rest = after;
    }
    rest
}

/// Whether a text begins with a word in small or large letters; the word is given in small ones.
fn begins_with(text: &[u8], word: &[u8]) -> bool
    ensures { result ≡ begins_with text.now word.now }
{
    let mut rest = text;
    let mut left = word;
    while let [letter, letters @ ..] = left {
        let [byte, after @ ..] = rest else {
            return false;
        };
        if *byte != *letter && u32::from(*byte) + 32 != u32::from(*letter) {
            return false;
        }
        rest = after;
        left = letters;
    }
    true
}

/// Whether a text begins as what begins or ends a transaction or asks of the pool itself, or with a
/// comment.
fn begins_own(text: &[u8]) -> bool
    ensures { result ≡ begins_own text.now }
{
    begins_with(text, b"begin")
        || begins_with(text, b"start")
        || begins_with(text, b"commit")
        || begins_with(text, b"end")
        || begins_with(text, b"rollback")
        || begins_with(text, b"abort")
        || begins_with(text, b"show")
        || begins_with(text, b"pgpool")
        || begins_with(text, b"--")
        || begins_with(text, b"/*")
}

/// Whether something stands behind a semicolon.
fn goes_on(text: &[u8]) -> bool
    ensures { result ≡ goes_on false text.now }
{
    let mut ended = false;
    let mut rest = text;
    while let [byte, after @ ..] = rest {
        if *byte == 59 {
            ended = true;
        } else if !is_blank(*byte) && ended {
            return true;
        }
        rest = after;
    }
    false
}

/// Whether a text is of one statement at most, and of none that begins or ends a transaction or
/// asks of the pool itself.
fn is_single(text: &[u8]) -> bool
    ensures { result ≡ is_single text.now }
{
    !begins_own(unblanked(text)) && !goes_on(text)
}

fn is_single_line(line: &ScriptLine) -> bool
    ensures { result ≡ is_single_line (line_of line.now) }
{
    match line {
        ScriptLine::Query(_, text) => is_single(text.as_bytes()),
        _ => true,
    }
}

/// Whether each text is of one statement at most.
pub fn are_single(lines: &[ScriptLine]) -> bool
    ensures { result ≡ list_all is_single_line (map line_of lines.now) }
{
    let mut rest = lines;
    while let [line, after @ ..] = rest {
        if !is_single_line(line) {
            return false;
        }
        rest = after;
    }
    true
}
