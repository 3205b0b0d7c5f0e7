//! Errors, notices, tags and the end of an answer, written where there is room.
ghost use Rattle.std.specs.Prelude.{◌≡◌, ◌++◌, ◌∷◌, ◌+◌, ◌*◌, ◌≤◌, ℕ, List as Sequence, [], length, vec_len, vec_capacity};
ghost use Rattle.wire_reply.specs.Sayings.{words_of, is_named};
ghost use Rattle.wire_reply.specs.Replies.{severity_word, text_with, report_tag, report_bytes, text_bytes, body_bytes, complete_bytes, ready_bytes};

use crate::saying::Saying;
use pool_base::Code;

/// How grave a report is.
#[derive(Clone, Copy, PartialEq, Eq)]
pub enum Severity {
    Error,
    /// The session ends with it.
    Fatal,
    Warning,
}

impl Severity {
    fn word(self) -> &'static str
        ensures word { result.now ≡ severity_word self }
        ensures short { length result.now ≤ 7 }
    {
        match self {
            Severity::Error => "ERROR",
            Severity::Fatal => "FATAL",
            Severity::Warning => "WARNING",
        }
    }

    fn kind(self) -> u8
        ensures { result ≡ report_tag self }
    {
        match self {
            Severity::Error | Severity::Fatal => b'E',
            Severity::Warning => b'N',
        }
    }
}

/// Puts bytes where there is room for them.
pub fn put_bytes(out: &mut Vec<u8>, bytes: &[u8])
    requires room { vec_len out.old + length bytes.now ≤ vec_capacity out.old }
    ensures items { out.new.items ≡ out.old.items ++ bytes.now }
    ensures len { vec_len out.new ≡ vec_len out.old + length bytes.now }
    ensures capacity { vec_capacity out.new ≡ vec_capacity out.old }
{
    for byte in bytes {
        out.push_reserved(*byte);
    }
}

/// A part of a report: its tag, its text, and a zero byte.
fn put_part(out: &mut Vec<u8>, tag: u8, text: &[u8])
    requires room { vec_len out.old + length text.now + 2 ≤ vec_capacity out.old }
    ensures items { out.new.items ≡ out.old.items ++ tag ∷ text.now ++ 0 ∷ [] }
    ensures len { vec_len out.new ≡ vec_len out.old + length text.now + 2 }
    ensures capacity { vec_capacity out.new ≡ vec_capacity out.old }
{
    out.push_reserved(tag);
    put_bytes(out, text);
    out.push_reserved(0);
}

/// The part with the text, and the end of the report.
fn put_text(out: &mut Vec<u8>, words: &[u8], name: &[u8])
    requires room { vec_len out.old + length words.now + length name.now + 3
        ≤ vec_capacity out.old }
    ensures items { out.new.items ≡ out.old.items ++ text_bytes (words.now ++ name.now) }
    ensures len { vec_len out.new ≡ vec_len out.old + length words.now + length name.now + 3 }
    ensures capacity { vec_capacity out.new ≡ vec_capacity out.old }
{
    out.push_reserved(b'M');
    put_bytes(out, words);
    put_bytes(out, name);
    put_bytes(out, &[0, 0]);
}

/// The name, where the text has a place for it.
fn behind(saying: Saying, name: &[u8]) -> &[u8]
    ensures text { words_of saying ++ result.now ≡ text_with saying name.now }
    ensures short { length result.now ≤ length name.now }
{
    if saying.is_named() { name } else { &[] }
}

/// How long the parts of a report are, and its end.
fn body_len(word: &[u8], words: &[u8], name: &[u8]) -> usize
    requires word { length word.now ≤ 7 }
    requires words { length words.now ≤ 60 }
    requires name { length name.now ≤ 1000 }
    ensures { (code : Sequence ℕ) → length code ≡ 5
        → result ≡ length (body_bytes word.now code (words.now ++ name.now)) }
{
    14 + 2 * word.len() + words.len() + name.len()
}

fn put_body(out: &mut Vec<u8>, word: &[u8], code: &[u8], words: &[u8], name: &[u8])
    requires room { vec_len out.old + 2 * length word.now + length code.now + length words.now
        + length name.now + 9 ≤ vec_capacity out.old }
    ensures items { out.new.items ≡ out.old.items
        ++ body_bytes word.now code.now (words.now ++ name.now) }
    ensures len { vec_len out.new ≡ vec_len out.old + 2 * length word.now + length code.now
        + length words.now + length name.now + 9 }
    ensures capacity { vec_capacity out.new ≡ vec_capacity out.old }
{
    put_part(out, b'S', word);
    put_part(out, b'V', word);
    put_part(out, b'C', code);
    put_text(out, words, name);
}

/// So many bytes a report takes at most, with a name of at most 1000 bytes.
pub const REPORT_ROOM: usize = 1100;

/// Puts what is said under a code, with the name where the text has a place for one.
///
/// Shape: the parts S, V, C and M of an ErrorResponse, or of a NoticeResponse for a warning.
/// Source: PostgreSQL, Frontend/Backend Protocol, "Error and Notice Message Fields".
pub fn put_report(out: &mut Vec<u8>, severity: Severity, code: Code, saying: Saying, name: &[u8])
    requires room { vec_len out.old + 1100 ≤ vec_capacity out.old }
    requires short { length name.now ≤ 1000 }
    ensures items { out.new.items ≡ out.old.items ++ report_bytes severity code.bytes
        (text_with saying name.now) }
    ensures len { vec_len out.new ≤ vec_len out.old + 1100 }
    ensures capacity { vec_capacity out.new ≡ vec_capacity out.old }
{
    let word = severity.word().as_bytes();
    let words = saying.words().as_bytes();
    let name = behind(saying, name);
    let length = body_len(word, words, name) + 4;
    out.push_reserved(severity.kind());
    put_bytes(out, &(length as u32).to_be_bytes());
    put_body(out, word, &code.bytes, words, name);
}

/// So many bytes a tag takes at most with what stands round it.
pub const TAG_ROOM: usize = 64;

/// Puts the end of a statement.
///
/// Source: PostgreSQL, Frontend/Backend Protocol, "CommandComplete".
pub fn put_complete(out: &mut Vec<u8>, tag: &str)
    requires room { vec_len out.old + 64 ≤ vec_capacity out.old }
    requires short { length tag.now ≤ 58 }
    ensures items { out.new.items ≡ out.old.items ++ complete_bytes tag.now }
    ensures len { vec_len out.new ≤ vec_len out.old + 64 }
    ensures capacity { vec_capacity out.new ≡ vec_capacity out.old }
{
    out.push_reserved(b'C');
    put_bytes(out, &(tag.len() as u32 + 5).to_be_bytes());
    put_bytes(out, tag.as_bytes());
    out.push_reserved(0);
}

/// So many bytes the end of an answer takes.
pub const READY_ROOM: usize = 6;

/// Puts the end of an answer: the session waits for more, in this status.
///
/// Source: PostgreSQL, Frontend/Backend Protocol, "ReadyForQuery".
pub fn put_ready(out: &mut Vec<u8>, status: u8)
    requires room { vec_len out.old + 6 ≤ vec_capacity out.old }
    ensures items { out.new.items ≡ out.old.items ++ ready_bytes status }
    ensures len { vec_len out.new ≡ vec_len out.old + 6 }
    ensures capacity { vec_capacity out.new ≡ vec_capacity out.old }
{
    put_bytes(out, &[b'Z', 0, 0, 0, 5, status]);
}
