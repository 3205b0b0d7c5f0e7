//! Reads a statement: the word that begins it, and what stands behind that word.
ghost use Rattle.std.specs.Prelude.{◌≡◌, ◌<◌, ◌≤◌, length, IfOk, IfSome};
ghost use Rattle.std.specs.Option.{option_map};
ghost use Rattle.sql_tokens.specs.Reading.{Gives};
ghost use Rattle.sql_tree.specs.declared.statement.Statement.TheVariants as statement;
ghost use Rattle.sql_reader.specs.Words.{after_verb};
ghost use Rattle.sql_reader.specs.Grammar.{BehindVerb, Bound};
ghost use Rattle.sql_reader.specs.Reading.{ending_at, verb_at, read_as};

use crate::control::{begin, recover, show, start, work};
use crate::insert::insert;
use crate::marks::mark_verb;
use crate::reading::{delete, update};
use crate::select::select;
use crate::verb::Verb;
use sql_tokens::{ReadError, Token};
use sql_tree::Statement;
use std::alloc::Global;

/// The word that begins a statement, and what stands behind it.
pub fn first_word(tokens: &[Token]) -> Option<(Verb, &[Token])>
    ensures gives { option_map (λ m. (m.0, m.1.now)) result ≡ after_verb tokens.now }
    ensures shorter { IfSome result (λ m. length m.1.now < length tokens.now) }
{
    mark_verb(tokens)
}

/// The end of a transaction, behind COMMIT or END.
fn commit(tokens: &[Token]) -> Result<(Statement, &[Token]), ReadError>
    ensures gives { Gives (λ x. (x.0, x.1.now)) result (ending_at statement.Commit tokens.now) }
    ensures no_longer { IfOk result (λ x. length x.1.now ≤ length tokens.now) }
{
    let (_work, rest) = work(tokens)?;
    Ok((Statement::Commit, rest))
}

/// The end of a transaction without effect, behind ROLLBACK or ABORT.
fn rollback(tokens: &[Token]) -> Result<(Statement, &[Token]), ReadError>
    ensures gives { Gives (λ x. (x.0, x.1.now)) result (ending_at statement.Rollback tokens.now) }
    ensures no_longer { IfOk result (λ x. length x.1.now ≤ length tokens.now) }
{
    let (_work, rest) = work(tokens)?;
    Ok((Statement::Rollback, rest))
}

fn behind_verb(
    alloc: Global,
    verb: Verb,
    tokens: &[Token],
) -> Result<(Statement, &[Token]), ReadError>
    ensures gives { Gives (λ x. (x.0, x.1.now)) result (verb_at 64 verb tokens.now) }
    ensures no_longer { IfOk result (λ x. length x.1.now ≤ length tokens.now) }
{
    match verb {
        Verb::Select => select(alloc, tokens),
        Verb::Insert => insert(alloc, tokens),
        Verb::Update => update(alloc, tokens),
        Verb::Delete => delete(alloc, tokens),
        Verb::Begin => begin(tokens),
        Verb::Start => start(tokens),
        Verb::Commit => commit(tokens),
        Verb::End => commit(tokens),
        Verb::Rollback => rollback(tokens),
        Verb::Abort => rollback(tokens),
        Verb::Show => show(tokens),
        Verb::Pgpool => recover(tokens),
    }
}

/// Reads a statement behind the word that begins it, as long as it can be, and gives what follows.
/// By the lines of the grammar alone: a SELECT of `*` or `count(*)` may stand without FROM.
pub fn read_behind(
    alloc: Global,
    verb: Verb,
    tokens: &[Token],
) -> Result<(Statement, &[Token]), ReadError>
    // What is read is of the grammar, and no deeper than the limit.
    ensures found { IfOk result (λ x. BehindVerb 64 verb tokens.now x.0 x.1.now) }
    // What is so up to a `;` or the end is read, unless memory runs out.
    ensures only { (s : _) (rest : _) → BehindVerb 64 verb tokens.now s rest → Bound rest
        → Gives (λ x. (x.0, x.1.now)) result (read_as s rest) }
    ensures gives { Gives (λ x. (x.0, x.1.now)) result (verb_at 64 verb tokens.now) }
    ensures no_longer { IfOk result (λ x. length x.1.now ≤ length tokens.now) }
{
    behind_verb(alloc, verb, tokens)
}
