//! `{3*ab}`, which stands for `ababab`, and `{3*a#}`, which stands for `a1a2a3`.
use crate::told::Told;

/// Puts a text so many times, with the number of the time in place of `#`.
fn put_times(count: u32, text: &str, onto: &mut Told) {
    let (front, back) = text.split_once('#').unwrap_or((text, ""));
    let is_numbered = text.contains('#');
    for time in 0..count {
        onto.put(front);
        if is_numbered {
            onto.put_number(u64::from(time).saturating_add(1));
        }
        onto.put(back);
    }
}

/// How many times which text, and what follows, behind a brace.
fn repeated_of(piece: &str) -> Option<(u32, &str, &str)> {
    let (count, rest) = piece.split_once('*')?;
    let (text, after) = rest.split_once('}')?;
    match count.parse::<u32>() {
        Ok(count) => Some((count, text, after)),
        Err(_) => None,
    }
}

/// Puts what stands behind a brace, and the brace where nothing is repeated.
fn put_piece(piece: &str, onto: &mut Told) {
    match repeated_of(piece) {
        Some((count, text, after)) => {
            put_times(count, text, onto);
            onto.put(after);
        }
        None => {
            onto.put("{");
            onto.put(piece);
        }
    }
}

/// Puts a text, with each text in braces as often as the number before it says.
pub(crate) fn put_expanded(text: &str, onto: &mut Told) {
    let mut is_front = true;
    for piece in text.split('{') {
        if is_front {
            onto.put(piece);
        } else {
            put_piece(piece, onto);
        }
        is_front = false;
    }
}

/// Puts a text, with an LF for each `¶` and a tab for each `⇥`.
pub fn put_lines(text: &str, onto: &mut Told) {
    for letter in text.chars() {
        match letter {
            '¶' => onto.put("\n"),
            '⇥' => onto.put("\t"),
            _ => onto.put_shown(&letter),
        }
    }
}
