//! Texts in quotes, and names that need none.
ghost use Rattle.std.specs.Prelude.{◌≡◌, ◌<◌, ◌++◌, OnOk, string_bytes};
ghost use Rattle.std.specs.List.{flat_map, list_all};
ghost use Rattle.sql_print.specs.Spelling.{begins_plain, goes_on_plain, in_quotes, inside, is_plain, is_reserved, spelled, name, string};

use pool_base::NoMemory;
use sql_tokens::all_words;

/// Adds a name, in double quotes where it is not plain.
pub fn push_name(text: &str, onto: &mut String) -> Result<(), NoMemory>
    ensures { OnOk result (string_bytes onto.new ≡ string_bytes onto.old
        ++ spelled (name text.now)) }
{
    if is_plain(text.as_bytes()) {
        onto.push_str(text)?;
        Ok(())
    } else {
        push_quoted('"', text, onto)
    }
}

/// Adds a string in its quotes.
pub fn push_string(text: &str, onto: &mut String) -> Result<(), NoMemory>
    ensures { OnOk result (string_bytes onto.new ≡ string_bytes onto.old
        ++ spelled (string text.now)) }
{
    push_quoted('\'', text, onto)
}

/// A text in quotes, in which the quote is written twice.
fn push_quoted(quote: char, text: &str, onto: &mut String) -> Result<(), NoMemory>
    requires { quote < 128 }
    ensures { OnOk result (string_bytes onto.new ≡ string_bytes onto.old
        ++ in_quotes quote text.now) }
{
    onto.push(quote)?;
    push_inside(quote, text, onto)?;
    onto.push(quote)?;
    Ok(())
}

/// A text in which the quote is written twice.
fn push_inside(quote: char, text: &str, onto: &mut String) -> Result<(), NoMemory>
    requires { quote < 128 }
    ensures { OnOk result (string_bytes onto.new ≡ string_bytes onto.old
        ++ flat_map (inside quote) text.now) }
{
    let mut rest = text;
    while let Some((front, back)) = rest.split_once(quote) {
        onto.push_str(front)?;
        onto.push(quote)?;
        onto.push(quote)?;
        rest = back;
    }
    onto.push_str(rest)?;
    Ok(())
}

/// The name needs no quotes.
fn is_plain(name: &[u8]) -> bool
    ensures { result ≡ is_plain name.now }
{
    match name {
        [] => false,
        [first, others @ ..] => { begins_plain(*first) && all_go_on(others) && !is_reserved(name) }
    }
}

fn begins_plain(byte: u8) -> bool
    ensures { result ≡ begins_plain byte }
{
    byte.is_ascii_lowercase() || byte == b'_'
}

fn goes_on_plain(byte: u8) -> bool
    ensures { result ≡ goes_on_plain byte }
{
    begins_plain(byte) || byte.is_ascii_digit()
}

fn all_go_on(bytes: &[u8]) -> bool
    ensures { result ≡ list_all goes_on_plain bytes.now }
{
    bytes.iter().all(|byte| goes_on_plain(*byte))
}

/// The text is a reserved word in lower case.
fn is_reserved(text: &[u8]) -> bool
    ensures { result ≡ is_reserved text.now }
{
    all_words()
        .iter()
        .any(|word| word.spelling().as_bytes() == text)
}
