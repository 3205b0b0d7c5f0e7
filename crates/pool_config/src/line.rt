//! The form of a line.
ghost use Rattle.std.specs.Prelude.{◌≡◌, ◌==◌, ◌<◌, ◌≤◌, ◌∷◌, [], Some, None, IfSome, option_map, length, true, false};
ghost use Rattle.pool_config.specs.Bytes.{has, front, behind, lines, lines_behind};
ghost use Rattle.pool_config.specs.Form.{spelling_of};
ghost use Rattle.pool_config.specs.Reader.{is_end, assignment_at, spelling_at, quoted_at, bare_at, value_part, form_at, form_of};

/// A value as it is written.
#[derive(Clone, Copy)]
pub enum Written<'a> {
    /// What stands between two quotes.
    Quoted(&'a [u8]),
    /// A word without quotes.
    Bare(&'a [u8]),
}

/// A line by its form.
#[derive(Clone, Copy)]
pub enum Line<'a> {
    /// Blank, or a comment.
    Empty,
    /// `name = value`.
    Assignment {
        name: &'a [u8],
        written: Written<'a>,
    },
    /// None of the grammar's.
    Other,
}

/// The classes of bytes that run together.
#[derive(Clone, Copy)]
pub enum Class {
    /// Space, tab, carriage return.
    Blank,
    /// In a name.
    Name,
    /// In a value without quotes.
    Word,
    /// Between two quotes.
    Inner,
    /// Between two line feeds.
    InLine,
}

fn is_blank(byte: u8) -> bool
    ensures { result ≡ has Class.Blank byte }
{
    byte == b' ' || byte == b'\t' || byte == b'\r'
}

fn is_word(byte: u8) -> bool
    ensures { result ≡ has Class.Word byte }
{
    !(is_blank(byte) || byte == b'\'' || byte == b'#')
}

impl Class {
    fn has(self, byte: u8) -> bool
        ensures { result ≡ has self byte }
    {
        match self {
            Class::Blank => is_blank(byte),
            Class::Name => is_word(byte) && byte != b'=',
            Class::Word => is_word(byte),
            Class::Inner => byte != b'\'',
            Class::InLine => byte != b'\n',
        }
    }
}

/// What stands behind the first bytes of the class.
fn skip_run(class: Class, bytes: &[u8]) -> &[u8]
    ensures { result.now ≡ behind class bytes.now }
{
    let mut left = bytes;
    while let [first, rest @ ..] = left {
        if !class.has(*first) {
            return left;
        }
        left = rest;
    }
    left
}

/// The first bytes of the class, and what stands behind them.
fn split_run(class: Class, bytes: &[u8]) -> (&[u8], &[u8])
    ensures run { result.0.now ≡ front class bytes.now }
    ensures rest { result.1.now ≡ behind class bytes.now }
{
    let rest = skip_run(class, bytes);
    bytes.split_at(bytes.len() - rest.len())
}

/// The first line, and what stands behind its line feed.
pub(crate) fn cut_line(bytes: &[u8]) -> (&[u8], Option<&[u8]>)
    ensures lines { lines bytes.now
        ≡ result.0.now ∷ (lines_behind (option_map (λ rest. rest.now) result.1)) }
    ensures shorter { IfSome result.1 (λ rest. length rest.now < length bytes.now) }
{
    let (line, rest) = split_run(Class::InLine, bytes);
    match rest {
        [_, next @ ..] => (line, Some(next)),
        [] => (line, None),
    }
}

/// Nothing more is said: blanks, and maybe a comment.
fn is_end(bytes: &[u8]) -> bool
    ensures { result ≡ is_end bytes.now }
{
    match skip_run(Class::Blank, bytes) {
        [first, ..] => *first == b'#',
        [] => true,
    }
}

/// The form of a line, which has no line feed in it.
#[tactic(auto, unfolding(crate::specs::Reader::form_at))]
pub(crate) fn read_line(line: &[u8]) -> Line<'_>
    ensures { form_of result ≡ form_at line.now }
{
    if is_end(line) {
        return Line::Empty;
    }
    match read_assignment(skip_run(Class::Blank, line)) {
        Some((name, written)) => Line::Assignment { name, written },
        None => Line::Other,
    }
}

/// `name = value` at the front, and nothing behind it but a comment.
fn read_assignment(bytes: &[u8]) -> Option<(&[u8], Written<'_>)>
    ensures { option_map (λ p. (p.0.now, spelling_of p.1)) result ≡ assignment_at bytes.now }
{
    let (name, rest) = split_run(Class::Name, bytes);
    if name.is_empty() {
        return None;
    }
    let value = behind_equals(skip_run(Class::Blank, rest))?;
    let (written, rest) = read_written(value)?;
    if !is_end(rest) {
        return None;
    }
    Some((name, written))
}

/// What stands behind `=` and blanks.
fn behind_equals(bytes: &[u8]) -> Option<&[u8]>
    ensures { option_map (λ rest. rest.now) result ≡ value_part bytes.now }
{
    match bytes {
        [first, rest @ ..] => {
            if *first == b'=' {
                Some(skip_run(Class::Blank, rest))
            } else {
                None
            }
        }
        [] => None,
    }
}

/// A value at the front, and what stands behind it.
fn read_written(bytes: &[u8]) -> Option<(Written<'_>, &[u8])>
    ensures { option_map (λ p. (spelling_of p.0, p.1.now)) result ≡ spelling_at bytes.now }
{
    match bytes {
        [first, inner @ ..] => {
            if *first == b'\'' {
                read_quoted(inner)
            } else {
                read_bare(bytes)
            }
        }
        [] => None,
    }
}

/// A word without quotes at the front.
fn read_bare(bytes: &[u8]) -> Option<(Written<'_>, &[u8])>
    ensures { option_map (λ p. (spelling_of p.0, p.1.now)) result ≡ bare_at bytes.now }
{
    let (word, rest) = split_run(Class::Word, bytes);
    if word.is_empty() {
        return None;
    }
    Some((Written::Bare(word), rest))
}

/// The rest of a string whose first quote was read.
fn read_quoted(bytes: &[u8]) -> Option<(Written<'_>, &[u8])>
    ensures { option_map (λ p. (spelling_of p.0, p.1.now)) result ≡ quoted_at bytes.now }
{
    let (inner, rest) = split_run(Class::Inner, bytes);
    match rest {
        [_, after @ ..] => Some((Written::Quoted(inner), after)),
        [] => None,
    }
}
