//! Who a client says that it is.
ghost use Rattle.std.specs.Prelude.{◌≡◌, codes, option_map};
ghost use Rattle.serve_base.specs.Names.{value_in, database_in};

use pg_messages::Pair;

/// The value of the first option of that name, if there is one.
pub fn option_of<'a>(options: &'a [Pair], name: &[u8]) -> Option<&'a [u8]>
    ensures { option_map (λ value. value.now) result ≡ value_in name.now options.now }
{
    match options {
        [first, rest @ ..] => {
            if first.name.as_slice() == name {
                Some(first.value.as_slice())
            } else {
                option_of(rest, name)
            }
        }
        [] => None,
    }
}

/// The database that a client asks for: the one that it names, or that of its user's name.
///
/// Source: PostgreSQL, "Frontend/Backend Protocol", "Message Formats", StartupMessage.
pub fn database_of(options: &[Pair]) -> Option<&[u8]>
    ensures { option_map (λ value. value.now) result ≡ database_in options.now }
{
    match option_of(options, b"database") {
        Some(database) => Some(database),
        None => option_of(options, b"user"),
    }
}
