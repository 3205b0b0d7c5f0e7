//! Cutting bytes where a byte stands.
ghost use Rattle.std.specs.Prelude.{◌≡◌, ◌<◌, ◌≤◌, ◌∷◌, IfSome, option_map, length};
ghost use Rattle.pool_config.specs.Bytes.{lines};
ghost use Rattle.serve_base.specs.Reader.{behind, cut, front, from_byte, lines_behind};

/// From the first such byte on.
fn from_byte(byte: u8, bytes: &[u8]) -> &[u8]
    ensures { result.now ≡ from_byte byte bytes.now }
{
    let mut left = bytes;
    while let [first, rest @ ..] = left {
        if *first == byte {
            return left;
        }
        left = rest;
    }
    left
}

/// What stands before the first such byte, and what is there from it on.
fn split_at_byte(byte: u8, bytes: &[u8]) -> (&[u8], &[u8])
    ensures front { result.0.now ≡ front byte bytes.now }
    ensures rest { result.1.now ≡ from_byte byte bytes.now }
{
    let rest = from_byte(byte, bytes);
    bytes.split_at(bytes.len() - rest.len())
}

/// What stands before the first such byte, and what stands behind it.
pub(crate) fn cut(byte: u8, bytes: &[u8]) -> Option<(&[u8], &[u8])>
    ensures { option_map (λ p. (p.0.now, p.1.now)) result ≡ cut byte bytes.now }
{
    let (front, rest) = split_at_byte(byte, bytes);
    match rest {
        [_, behind @ ..] => Some((front, behind)),
        [] => None,
    }
}

/// The first line, and what stands behind its line feed.
pub(crate) fn cut_line(bytes: &[u8]) -> (&[u8], Option<&[u8]>)
    ensures lines { lines bytes.now
        ≡ result.0.now ∷ (lines_behind (option_map (λ rest. rest.now) result.1)) }
    ensures shorter { IfSome result.1 (λ rest. length rest.now < length bytes.now) }
{
    let (line, rest) = split_at_byte(b'\n', bytes);
    match rest {
        [_, next @ ..] => (line, Some(next)),
        [] => (line, None),
    }
}

/// What stands behind these bytes, where others begin with them.
pub(crate) fn behind<'a>(first: &[u8], bytes: &'a [u8]) -> Option<&'a [u8]>
    ensures { option_map (λ rest. rest.now) result ≡ behind first.now bytes.entry.now }
{
    bytes.strip_prefix(first)
}
