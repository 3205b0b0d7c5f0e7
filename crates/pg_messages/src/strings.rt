//! Tests of what may stand in a message.
ghost use Rattle.std.specs.Prelude.{◌↔◌, IsTrue, All};
ghost use Rattle.pg_messages.specs.Fields.{IsString, IsCountable, FieldFits, PartFits};

use crate::server::{Field, Part};

/// Whether no zero byte stands in the text.
pub fn is_string(text: &[u8]) -> bool
    ensures { IsTrue result ↔ IsString text.now }
{
    text.iter().all(|byte| *byte != 0)
}

/// Whether an Int16 can count the entries.
pub fn is_countable<T>(entries: &[T]) -> bool
    ensures { IsTrue result ↔ IsCountable entries.now }
{
    entries.len() <= 32767
}

/// Whether the names of fields hold no zero byte.
pub fn are_fields(fields: &[Field]) -> bool
    ensures { IsTrue result ↔ All FieldFits fields.now }
{
    fields.iter().all(|field| is_string(field.name.as_slice()))
}

/// Whether no part has the tag 0, and their texts hold no zero byte.
pub fn are_parts(parts: &[Part]) -> bool
    ensures { IsTrue result ↔ All PartFits parts.now }
{
    parts
        .iter()
        .all(|part| part.tag != 0 && is_string(part.text.as_slice()))
}
