//! Reads the statements at the front of a text, one after the other.
ghost use Rattle.std.specs.Prelude.{◌≡◌, ◌<◌, ◌≤◌, length, IfOk, IfSome, [], None, Some};
ghost use Rattle.std.specs.Option.{option_map};
ghost use Rattle.sql_reader.specs.Words.{after_semicolon};
ghost use Rattle.sql_reader.specs.Reading.{verb_at};
ghost use Rattle.sql_reader.specs.TextReading.{Answers, lifted, placed, add_at, further_at, lines_at};

use crate::statement::{first_word, read_behind};
use crate::text_fault::{TextError, TextFault};
use crate::text_rules::lacks_from;
use crate::verb::Verb;
use pool_base::List;
use sql_tokens::{Mark, Token};
use sql_tree::Statement;
use std::alloc::Global;

/// How many statements a text may have.
pub const STATEMENT_LIMIT: usize = 256;

/// What follows `;` at the front.
fn mark_semicolon(tokens: &[Token]) -> Option<&[Token]>
    ensures gives { option_map (λ ts. (tt, ts.now)) result ≡ after_semicolon tokens.now }
    ensures shorter { IfSome result (λ ts. length ts.now < length tokens.now) }
{
    match tokens {
        [Token::Mark(Mark::Semicolon), after @ ..] => Some(after),
        _ => None,
    }
}

/// The statements with the one behind its first word, and what follows it.
#[tactic(auto, using(crate::proofs::Added::lifted_fails))]
fn add_behind(
    alloc: Global,
    mut statements: List<Statement>,
    verb: Verb,
    tokens: &[Token],
) -> Result<(List<Statement>, &[Token]), TextError>
    ensures gives { Answers (λ x. (x.0, x.1.now)) result
        (lifted (verb_at 64 verb tokens.now) (placed statements tokens.now)) }
    ensures no_longer { IfOk result (λ x. length x.1.now ≤ length tokens.now) }
{
    let (statement, rest) = read_behind(alloc, verb, tokens)?;
    if lacks_from(&statement, rest) {
        drop(statement);
        let left = tokens.len();
        return Err(TextError::Fault(TextFault::WithoutFrom { left }));
    }
    statements.push(statement)?;
    Ok((statements, rest))
}

/// The statements with the one at the front, if there is one, and what follows it.
#[tactic(auto, using(crate::proofs::Added::full_is, crate::proofs::Added::added_is))]
fn add(
    alloc: Global,
    statements: List<Statement>,
    tokens: &[Token],
) -> Result<(List<Statement>, &[Token]), TextError>
    ensures gives { Answers (λ x. (x.0, x.1.now)) result (add_at 64 statements tokens.now) }
    ensures no_longer { IfOk result (λ x. length x.1.now ≤ length tokens.now) }
{
    match first_word(tokens) {
        Some((verb, after)) => {
            if statements.len() >= STATEMENT_LIMIT {
                let left = tokens.len();
                return Err(TextError::Fault(TextFault::TooMany { left }));
            }
            add_behind(alloc, statements, verb, after)
        }
        None => Ok((statements, tokens)),
    }
}

/// The statements with those behind each further `;`, and what follows them.
fn further(
    alloc: Global,
    statements: List<Statement>,
    tokens: &[Token],
) -> Result<(List<Statement>, &[Token]), TextError>
    ensures gives { Answers (λ x. (x.0, x.1.now)) result (further_at 64 statements tokens.now) }
    ensures no_longer { IfOk result (λ x. length x.1.now ≤ length tokens.now) }
{
    let mut all = statements;
    let mut rest = tokens;
    while let Some(after) = mark_semicolon(rest) {
        let (more, after) = add(alloc, all, after)?;
        all = more;
        rest = after;
    }
    Ok((all, rest))
}

/// The statements at the front, and what follows them.
pub(crate) fn lines(
    alloc: Global,
    tokens: &[Token],
) -> Result<(List<Statement>, &[Token]), TextError>
    ensures gives { Answers (λ x. (x.0, x.1.now)) result (lines_at 64 tokens.now) }
    ensures no_longer { IfOk result (λ x. length x.1.now ≤ length tokens.now) }
{
    let (first, rest) = add(alloc, List::new(alloc), tokens)?;
    further(alloc, first, rest)
}
