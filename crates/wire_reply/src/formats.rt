//! The formats of values: text or binary.
ghost use Rattle.std.specs.Prelude.{◌≡◌, ◌≤◌, List, ℕ, length, IfOk};
ghost use Rattle.wire_reply.specs.Rows.{format_at};

/// The format of the value at a place, of a list of no format, one format, or one for each value.
///
/// Source: PostgreSQL, Frontend/Backend Protocol, "Bind".
pub fn format_at(formats: &[u16], at: usize) -> u16
    ensures { result ≡ format_at formats.now at }
{
    match formats {
        [] => 0,
        [one] => *one,
        _ => match formats.get(at) {
            Some(format) => *format,
            None => 0,
        },
    }
}
