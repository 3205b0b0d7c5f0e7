//! The word in front of a line.

/// What a line speaks of.
#[derive(Clone, Copy)]
pub(crate) enum Kind {
    Order,
    Gate,
    Post,
    Act,
    Take,
    Lost,
    Fault,
    Detach,
    Reply,
    End,
}

/// The word of what takes place at a session, and the bytes after it.
fn of_session(line: &[u8]) -> Option<(Kind, &[u8])> {
    if let Some(rest) = line.strip_prefix(b"order ") {
        return Some((Kind::Order, rest));
    }
    if let Some(rest) = line.strip_prefix(b"gate ") {
        return Some((Kind::Gate, rest));
    }
    if let Some(rest) = line.strip_prefix(b"detach ") {
        return Some((Kind::Detach, rest));
    }
    if let Some(rest) = line.strip_prefix(b"reply ") {
        return Some((Kind::Reply, rest));
    }
    if let Some(rest) = line.strip_prefix(b"end ") {
        return Some((Kind::End, rest));
    }
    None
}

/// The word of what takes place between a session and a backend, and the bytes after it.
fn of_backend(line: &[u8]) -> Option<(Kind, &[u8])> {
    if let Some(rest) = line.strip_prefix(b"post ") {
        return Some((Kind::Post, rest));
    }
    if let Some(rest) = line.strip_prefix(b"act ") {
        return Some((Kind::Act, rest));
    }
    if let Some(rest) = line.strip_prefix(b"take ") {
        return Some((Kind::Take, rest));
    }
    if let Some(rest) = line.strip_prefix(b"lost ") {
        return Some((Kind::Lost, rest));
    }
    if let Some(rest) = line.strip_prefix(b"fault ") {
        return Some((Kind::Fault, rest));
    }
    None
}

/// The word in front of a line, and the bytes after it.
pub(crate) fn kind_of(line: &[u8]) -> Option<(Kind, &[u8])> {
    match of_session(line) {
        Some(found) => Some(found),
        None => of_backend(line),
    }
}
