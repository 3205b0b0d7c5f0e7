//! Reads what begins and ends transactions, `SHOW pool_nodes` and `PGPOOL RECOVER`, behind the word
//! that begins each.
ghost use Rattle.std.specs.Prelude.{◌≡◌, ◌<◌, ◌≤◌, length, IfOk};
ghost use Rattle.sql_tokens.specs.Reading.{Gives};
ghost use Rattle.sql_reader.specs.Reading.{work_at, isolation_at, begin_at, start_at, show_at, recover_at};

use crate::marks::{mark_isolation, mark_work};
use crate::words::{
    backend, name_pool_nodes, name_recover, word_level, word_read, word_repeatable,
    word_transaction,
};
use sql_tokens::{ReadError, Token};
use sql_tree::Statement;

/// Whether WORK or TRANSACTION stands there, and what follows.
pub(crate) fn work(tokens: &[Token]) -> Result<(Option<()>, &[Token]), ReadError>
    ensures gives { Gives (λ x. (x.0, x.1.now)) result (work_at tokens.now) }
    ensures no_longer { IfOk result (λ x. length x.1.now ≤ length tokens.now) }
{
    match mark_work(tokens) {
        Some((_, after)) => Ok((Some(()), after)),
        None => Ok((None, tokens)),
    }
}

/// Whether the level of isolation stands there, and what follows.
fn isolation(tokens: &[Token]) -> Result<(Option<()>, &[Token]), ReadError>
    ensures gives { Gives (λ x. (x.0, x.1.now)) result (isolation_at tokens.now) }
    ensures no_longer { IfOk result (λ x. length x.1.now ≤ length tokens.now) }
{
    match mark_isolation(tokens) {
        Some(after) => {
            let rest = word_level(after)?;
            let rest = word_repeatable(rest)?;
            let rest = word_read(rest)?;
            Ok((Some(()), rest))
        }
        None => Ok((None, tokens)),
    }
}

/// The begin of a transaction, behind BEGIN.
pub(crate) fn begin(tokens: &[Token]) -> Result<(Statement, &[Token]), ReadError>
    ensures gives { Gives (λ x. (x.0, x.1.now)) result (begin_at tokens.now) }
    ensures no_longer { IfOk result (λ x. length x.1.now ≤ length tokens.now) }
{
    let (_work, rest) = work(tokens)?;
    let (_isolation, rest) = isolation(rest)?;
    Ok((Statement::Begin, rest))
}

/// The begin of a transaction, behind START.
pub(crate) fn start(tokens: &[Token]) -> Result<(Statement, &[Token]), ReadError>
    ensures gives { Gives (λ x. (x.0, x.1.now)) result (start_at tokens.now) }
    ensures no_longer { IfOk result (λ x. length x.1.now ≤ length tokens.now) }
{
    let rest = word_transaction(tokens)?;
    let (_isolation, rest) = isolation(rest)?;
    Ok((Statement::Begin, rest))
}

/// `pool_nodes`, behind SHOW.
pub(crate) fn show(tokens: &[Token]) -> Result<(Statement, &[Token]), ReadError>
    ensures gives { Gives (λ x. (x.0, x.1.now)) result (show_at tokens.now) }
    ensures no_longer { IfOk result (λ x. length x.1.now ≤ length tokens.now) }
{
    let rest = name_pool_nodes(tokens)?;
    Ok((Statement::ShowNodes, rest))
}

/// `recover` and the number of a backend, behind `pgpool`.
pub(crate) fn recover(tokens: &[Token]) -> Result<(Statement, &[Token]), ReadError>
    ensures gives { Gives (λ x. (x.0, x.1.now)) result (recover_at tokens.now) }
    ensures no_longer { IfOk result (λ x. length x.1.now ≤ length tokens.now) }
{
    let rest = name_recover(tokens)?;
    let (backend, rest) = backend(rest)?;
    Ok((Statement::Recover(backend), rest))
}
