//! Lines of a text.
ghost use Rattle.std.specs.Prelude.{◌≤◌, IfSome, length};

use pool_base::{List, NoMemory};
use std::alloc::Global;

/// How many bytes the first line has, with its end where it has one.
fn line_len(bytes: &[u8]) -> usize
    ensures { result ≤ length bytes.now }
{
    for n in 0..bytes.len() {
        if bytes[n] == b'\n' {
            return n + 1;
        }
    }
    bytes.len()
}

/// How many lines have their end.
pub(crate) fn line_count(bytes: &[u8]) -> usize {
    let mut count: usize = 0;
    for byte in bytes {
        if *byte == b'\n' {
            count = count.saturating_add(1);
        }
    }
    count
}

/// Where the first line begins that has the word in front.
pub(crate) fn place_of(word: &[u8], text: &[u8]) -> Option<usize>
    ensures { IfSome result (λ n. n ≤ length text.now) }
{
    let mut begins = true;
    for n in 0..text.len() {
        if begins && text.split_at(n).1.starts_with(word) {
            return Some(n);
        }
        begins = text[n] == b'\n';
    }
    None
}

/// The lines in front that begin with the word, without it, and the bytes after them.
pub(crate) fn unmarked<'a>(
    alloc: Global,
    word: &[u8],
    bytes: &'a [u8],
) -> Result<(List<u8>, &'a [u8]), NoMemory> {
    let mut found = List::new(alloc);
    let mut left = bytes;
    for _ in 0..bytes.len() {
        let Some(rest) = left.strip_prefix(word) else {
            break;
        };
        let (line, more) = rest.split_at(line_len(rest));
        found.extend_from_slice(line)?;
        left = more;
    }
    Ok((found, left))
}
