//! Fields, put behind the bytes of a list.
ghost use Rattle.std.specs.Prelude.{ℕ, List as Sequence, Option, ◌≡◌, ◌++◌, ◌∷◌, ◌<◌, ◌≤◌, ◌+◌, ◌-◌, ◌^◌, min, length, All, OnOk, OnErr};
ghost use Rattle.std.specs.List.{flat_map};
ghost use Rattle.std.specs.Int.{w16, w32};
ghost use Rattle.std.specs.Int.RustNames.{FitsSigned};
ghost use Rattle.pg_messages.specs.Fields.{int16, int32, signed16, signed32, string, counted, zero_ended, value, field, part, IsString, IsCountable, ValueFits, AreBytes, ValueInRange, FieldInRange, PartInRange};
ghost use Rattle.pg_messages.specs.Kept.{Keeps};

use crate::server::{Field, Part};
use pool_base::{List, NoMemory};

/// Bytes as they are.
pub fn put_bytes(bytes: &[u8], onto: &mut List<u8>) -> Result<(), NoMemory>
    ensures put { OnOk result (onto.new ≡ onto.old ++ bytes.now) }
    ensures in_range { AreBytes bytes.now }
    ensures kept { OnErr result (Keeps onto.old onto.new) }
{
    onto.extend_from_slice(bytes)
}

/// String: its bytes, and a zero byte.
pub fn put_string(text: &[u8], onto: &mut List<u8>) -> Result<(), NoMemory>
    ensures put { OnOk result (onto.new ≡ onto.old ++ string text.now) }
    ensures in_range { AreBytes text.now }
    ensures kept { OnErr result (Keeps onto.old onto.new) }
{
    onto.extend_from_slice(text)?;
    onto.push(0)
}

/// What a list of a body may hold, and how an entry is spelled.
pub trait Spelled: Sized {
    ghost spelled: { Self → Sequence ℕ };

    ghost Fits: { Self → Type 0 };

    ghost InRange: { Self → Type 0 };

    /// The bytes of the entry, as far as a `usize` counts.
    fn spelled_len(&self) -> usize
        ensures { result ≡ min (length (spelled self.now)) (2 ^ 64 - 1) };

    fn put(&self, onto: &mut List<u8>) -> Result<(), NoMemory>
        requires { Fits self.now }
        ensures put { OnOk result (onto.new ≡ onto.old ++ spelled self.now) }
        ensures in_range { OnOk result (InRange self.now) }
        ensures kept { OnErr result (Keeps onto.old onto.new) };
}

impl Spelled for u16 {
    ghost spelled = { int16 };

    ghost Fits = { λ n. Unit {0} };

    ghost InRange = { λ n. n < 2 ^ 16 };

    fn spelled_len(&self) -> usize {
        2
    }

    fn put(&self, onto: &mut List<u8>) -> Result<(), NoMemory> {
        onto.extend_from_slice(&self.to_be_bytes())
    }
}

impl Spelled for u32 {
    ghost spelled = { int32 };

    ghost Fits = { λ n. Unit {0} };

    ghost InRange = { λ n. n < 2 ^ 32 };

    fn spelled_len(&self) -> usize {
        4
    }

    fn put(&self, onto: &mut List<u8>) -> Result<(), NoMemory> {
        onto.extend_from_slice(&self.to_be_bytes())
    }
}

impl Spelled for Option<List<u8>> {
    ghost spelled = { value };

    ghost Fits = { ValueFits };

    ghost InRange = { ValueInRange };

    fn spelled_len(&self) -> usize {
        match self {
            None => 4,
            Some(bytes) => bytes.len().saturating_add(4),
        }
    }

    fn put(&self, onto: &mut List<u8>) -> Result<(), NoMemory> {
        match self {
            None => u32::MAX.put(onto),
            Some(bytes) => {
                (bytes.len() as u32).put(onto)?;
                put_bytes(bytes.as_slice(), onto)
            }
        }
    }
}

impl Spelled for i16 {
    ghost spelled = { signed16 };

    ghost Fits = { λ z. Unit {0} };

    ghost InRange = { λ z. FitsSigned w16 z };

    fn spelled_len(&self) -> usize {
        2
    }

    fn put(&self, onto: &mut List<u8>) -> Result<(), NoMemory> {
        onto.extend_from_slice(&self.to_be_bytes())
    }
}

impl Spelled for i32 {
    ghost spelled = { signed32 };

    ghost Fits = { λ z. Unit {0} };

    ghost InRange = { λ z. FitsSigned w32 z };

    fn spelled_len(&self) -> usize {
        4
    }

    fn put(&self, onto: &mut List<u8>) -> Result<(), NoMemory> {
        onto.extend_from_slice(&self.to_be_bytes())
    }
}

impl Spelled for Field {
    ghost spelled = { field };

    ghost Fits = { λ f. Unit {0} };

    ghost InRange = { FieldInRange };

    fn spelled_len(&self) -> usize {
        self.name.len().saturating_add(19)
    }

    fn put(&self, onto: &mut List<u8>) -> Result<(), NoMemory> {
        put_string(self.name.as_slice(), onto)?;
        self.table.put(onto)?;
        self.column.put(onto)?;
        self.kind.put(onto)?;
        self.size.put(onto)?;
        self.modifier.put(onto)?;
        self.format.put(onto)
    }
}

impl Spelled for Part {
    ghost spelled = { part };

    ghost Fits = { λ p. Unit {0} };

    ghost InRange = { PartInRange };

    fn spelled_len(&self) -> usize {
        self.text.len().saturating_add(2)
    }

    fn put(&self, onto: &mut List<u8>) -> Result<(), NoMemory> {
        onto.push(self.tag)?;
        put_string(self.text.as_slice(), onto)
    }
}

/// The bytes of entries one behind the other, as far as a `usize` counts.
pub fn entries_len<S: Spelled>(entries: &[S]) -> usize
    ensures { result ≡ min (length (flat_map S.spelled entries.now)) (2 ^ 64 - 1) }
{
    let mut total: usize = 0;
    for entry in entries {
        total = total.saturating_add(entry.spelled_len());
    }
    total
}

/// Entries one behind the other.
pub fn put_entries<S: Spelled>(entries: &[S], onto: &mut List<u8>) -> Result<(), NoMemory>
    requires { All S.Fits entries.now }
    ensures put { OnOk result (onto.new ≡ onto.old ++ flat_map S.spelled entries.now) }
    ensures in_range { OnOk result (All S.InRange entries.now) }
    ensures kept { OnErr result (Keeps onto.old onto.new) }
{
    for entry in entries {
        entry.put(onto)?;
    }
    Ok(())
}

/// A list behind an Int16 count.
pub fn put_counted<S: Spelled>(entries: &[S], onto: &mut List<u8>) -> Result<(), NoMemory>
    requires countable { IsCountable entries.now }
    requires fit { All S.Fits entries.now }
    ensures put { OnOk result (onto.new ≡ onto.old ++ counted S.spelled entries.now) }
    ensures in_range { OnOk result (All S.InRange entries.now) }
    ensures kept { OnErr result (Keeps onto.old onto.new) }
{
    (entries.len() as u16).put(onto)?;
    put_entries(entries, onto)
}

/// A list that a zero byte ends.
pub fn put_zero_ended<S: Spelled>(entries: &[S], onto: &mut List<u8>) -> Result<(), NoMemory>
    requires { All S.Fits entries.now }
    ensures put { OnOk result (onto.new ≡ onto.old ++ zero_ended S.spelled entries.now) }
    ensures in_range { OnOk result (All S.InRange entries.now) }
    ensures kept { OnErr result (Keeps onto.old onto.new) }
{
    put_entries(entries, onto)?;
    onto.push(0)
}

/// What stands in front of a body: the type and the length, which counts itself and the body.
pub fn put_head(tag: u8, body_len: usize, onto: &mut List<u8>) -> Result<(), NoMemory>
    requires { body_len + 4 ≤ 1048576 }
    ensures put { OnOk result (onto.new ≡ onto.old ++ tag ∷ int32 (body_len + 4)) }
    ensures kept { OnErr result (Keeps onto.old onto.new) }
{
    onto.push(tag)?;
    (body_len as u32 + 4).put(onto)
}
