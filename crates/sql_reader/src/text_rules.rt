//! The rules of a text that the lines of the grammar do not say.
ghost use Rattle.std.specs.Prelude.{◌≡◌};
ghost use Rattle.sql_reader.specs.TextGrammar.{is_bare_list, is_bare};
ghost use Rattle.sql_reader.specs.TextReading.{is_bound, lacks_from};

use pool_base::Text;
use sql_tokens::{Mark, Token};
use sql_tree::{SelectList, Statement};

/// Whether a list is `*` or `count(*)`, and has no table.
fn is_bare_list(list: &SelectList, table: &Option<Text>) -> bool
    ensures { result ≡ is_bare_list list.now table.now }
{
    match list {
        SelectList::Star => table.is_none(),
        SelectList::Count => table.is_none(),
        SelectList::Items(_) => false,
    }
}

/// Whether it is a SELECT of `*` or `count(*)` without FROM.
fn is_bare(statement: &Statement) -> bool
    ensures { result ≡ is_bare statement.now }
{
    match statement {
        Statement::Select(select) => is_bare_list(&select.list, &select.table),
        Statement::Insert(_) | Statement::Update(_) | Statement::Delete(_) => false,
        Statement::Begin | Statement::Commit | Statement::Rollback => false,
        Statement::ShowNodes | Statement::Recover(_) => false,
    }
}

/// Whether a statement ends here: at `;` or at the end.
fn is_bound(tokens: &[Token]) -> bool
    ensures { result ≡ is_bound tokens.now }
{
    match tokens {
        [] => true,
        [Token::Mark(Mark::Semicolon), ..] => true,
        _ => false,
    }
}

/// Whether the statement has ended, and lacks FROM.
pub(crate) fn lacks_from(statement: &Statement, rest: &[Token]) -> bool
    ensures { result ≡ lacks_from statement.now rest.now }
{
    is_bare(statement) && is_bound(rest)
}
