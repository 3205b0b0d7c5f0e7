//! Bytes that wait to be written, and the reply that waits for Settle.
ghost use Rattle.std.specs.Prelude.{◌≡◌, ◌≤◌, ◌+◌, ◌++◌, [], length, vec_len, vec_capacity, Some, IsTrue, IsOk, OnOk, OnErr};
ghost use Rattle.wire_reply.specs.Replies.{report_bytes, text_with, complete_bytes, ready_bytes};
ghost use Rattle.wire_reply.specs.Tags.{tag_text, is_fixed};
ghost use Rattle.wire_reply.specs.declared.report.Severity.TheVariants.{Error};
ghost use Rattle.session_wire.specs.Sayings.{Grows, HasRoom, warned, done_bytes, said_bytes};

use pool_base::{Code, NoMemory};
use session_orders::Tag;
use std::alloc::Global;
use wire_reply::{
    READY_ROOM, REPORT_ROOM, Saying, Severity, TAG_ROOM, fixed_tag, of_backend, put_complete,
    put_ready, put_report, tag_text,
};

/// Bytes for the client.
#[derive(Drop)]
pub(crate) struct Output {
    /// What may be written.
    pub(crate) bytes: Vec<u8>,
    /// The reply to the last statement of a text, until the text is settled.
    pub(crate) held: Vec<u8>,
}

impl Output {
    pub(crate) fn new(alloc: Global) -> Output
        ensures bytes { result.bytes.items ≡ [] }
        ensures held { result.held.items ≡ [] }
    {
        Output {
            bytes: Vec::new(alloc),
            held: Vec::new(alloc),
        }
    }

    /// Puts bytes: those of a reply to the last statement of a text wait.
    pub(crate) fn put(&mut self, holds: bool, bytes: &[u8]) -> Result<(), NoMemory>
        ensures ok { OnOk result (Grows holds bytes.now self.old self.new) }
    {
        if holds {
            self.held.extend_from_slice(bytes)?;
            return Ok(());
        }
        self.bytes.extend_from_slice(bytes)?;
        Ok(())
    }

    /// Puts the end of a statement, with its warning before it.
    pub(crate) fn put_done(
        &mut self,
        alloc: Global,
        holds: bool,
        tag: Tag,
        warning: Option<Code>,
    ) -> Result<(), NoMemory>
        ensures ok { OnOk result (Grows holds (done_bytes tag warning) self.old self.new) }
        ensures room { IsTrue (is_fixed tag) → HasRoom self.old → IsOk result }
    {
        if holds {
            done(alloc, &mut self.held, tag, warning)?;
            return Ok(());
        }
        done(alloc, &mut self.bytes, tag, warning)?;
        Ok(())
    }

    /// Puts an error.
    pub(crate) fn put_error(
        &mut self,
        holds: bool,
        code: Code,
        saying: Saying,
        name: &[u8],
    ) -> Result<(), NoMemory>
        requires short { length name.now ≤ 1000 }
        ensures ok { OnOk result (Grows holds
            (report_bytes Error code.bytes (text_with saying name.now)) self.old self.new) }
    {
        if holds {
            report(&mut self.held, Severity::Error, code, saying, name)?;
            return Ok(());
        }
        report(&mut self.bytes, Severity::Error, code, saying, name)?;
        Ok(())
    }

    /// Puts the end of an answer behind the reply that waited, or behind an error in its place.
    pub(crate) fn settle(&mut self, error: Option<Code>, status: u8) -> Result<(), NoMemory>
        ensures bytes { OnOk result (self.new.bytes.items ≡ self.old.bytes.items
            ++ said_bytes error self.old.held.items ++ ready_bytes status) }
        ensures held { OnOk result (self.new.held.items ≡ []) }
        ensures room { HasRoom self.old → IsOk result }
    {
        match error {
            Some(code) => {
                report(
                    &mut self.bytes,
                    Severity::Error,
                    code,
                    of_backend(code),
                    &[],
                )?;
                self.end(status)?;
                Ok(())
            }
            None => {
                self.bytes.extend_from_slice(self.held.as_slice())?;
                self.end(status)?;
                Ok(())
            }
        }
    }

    /// Puts the end of an answer; nothing waits then.
    fn end(&mut self, status: u8) -> Result<(), NoMemory>
        ensures bytes { OnOk result (self.new.bytes.items ≡ self.old.bytes.items
            ++ ready_bytes status) }
        ensures held { OnOk result (self.new.held.items ≡ []) }
        ensures room { vec_len self.old.bytes + 6 ≤ vec_capacity self.old.bytes → IsOk result }
    {
        self.bytes.reserve(READY_ROOM)?;
        put_ready(&mut self.bytes, status);
        self.held.clear();
        Ok(())
    }
}

/// Puts an error, or with another severity a notice or the end of a session.
pub(crate) fn report(
    out: &mut Vec<u8>,
    severity: Severity,
    code: Code,
    saying: Saying,
    name: &[u8],
) -> Result<(), NoMemory>
    requires short { length name.now ≤ 1000 }
    ensures ok { OnOk result (out.new.items ≡ out.old.items
        ++ report_bytes severity code.bytes (text_with saying name.now)) }
    ensures err { OnErr result (out.new.items ≡ out.old.items) }
    ensures room { vec_len out.old + 1100 ≤ vec_capacity out.old → IsOk result }
    ensures len { OnOk result (vec_len out.new ≤ vec_len out.old + 1100) }
    ensures capacity { vec_capacity out.old ≤ vec_capacity out.new }
{
    out.reserve(REPORT_ROOM)?;
    put_report(out, severity, code, saying, name);
    Ok(())
}

/// Puts the end of a statement, with its warning before it.
fn done(alloc: Global, out: &mut Vec<u8>, tag: Tag, warning: Option<Code>) -> Result<(), NoMemory>
    ensures ok { OnOk result (out.new.items ≡ out.old.items ++ done_bytes tag warning) }
    ensures room { IsTrue (is_fixed tag) → vec_len out.old + 1164 ≤ vec_capacity out.old
        → IsOk result }
{
    match fixed_tag(tag) {
        Some(word) => {
            put_end(out, word, warning)?;
            Ok(())
        }
        None => {
            let text = tag_text(alloc, tag)?;
            put_end(out, text.as_str(), warning)?;
            Ok(())
        }
    }
}

/// Puts a tag, with a warning before it.
fn put_end(out: &mut Vec<u8>, tag: &str, warning: Option<Code>) -> Result<(), NoMemory>
    requires short { length tag.now ≤ 58 }
    ensures ok { OnOk result (out.new.items ≡ out.old.items ++ (warned warning
        ++ complete_bytes tag.now)) }
    ensures room { vec_len out.old + 1164 ≤ vec_capacity out.old → IsOk result }
{
    out.reserve(REPORT_ROOM + TAG_ROOM)?;
    match warning {
        Some(code) => {
            put_warning(out, tag, code);
            Ok(())
        }
        None => {
            put_complete(out, tag);
            Ok(())
        }
    }
}

/// Puts a warning and a tag.
fn put_warning(out: &mut Vec<u8>, tag: &str, code: Code)
    requires room { vec_len out.old + 1164 ≤ vec_capacity out.old }
    requires short { length tag.now ≤ 58 }
    ensures { out.new.items ≡ out.old.items ++ (warned (Some code) ++ complete_bytes tag.now) }
{
    put_report(out, Severity::Warning, code, of_backend(code), &[]);
    put_complete(out, tag);
}
