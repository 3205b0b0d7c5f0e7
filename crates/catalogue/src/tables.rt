//! The tables that statements name, and filters over their rows.
ghost use Rattle.std.specs.Prelude.{◌≡◌, ◌≤◌, IfOk, IfSome, length};
ghost use Rattle.std.specs.Option.{option_map};
ghost use Rattle.schema.specs.Grammar.{IsWithin};
ghost use Rattle.typed_sql.specs.Meaning.{Finds, scope_of};
ghost use Rattle.typed_sql.specs.Steps.{Answers};
ghost use Rattle.catalogue.specs.Statements.{FilterOf, table_from, table_named};

use pool_base::Text;
use schema::{Catalogue, TableDef};
use sql_tree::Expr;
use typed_sql::{Check, CheckFault, Known, TypedExpr, asks_bool, no_table, typed_at};

/// The table of that name, and its number.
fn find_table<'a>(tables: &'a Catalogue, name: &Text) -> Option<(u8, &'a TableDef)>
    requires { IsWithin tables.now }
    ensures found { option_map (λ x. (x.0, x.1.now)) result ≡ table_from 0 name.now tables.now }
    ensures few { IfSome result (λ x. length x.1.now.columns ≤ 32) }
{
    match tables.find(name.as_str()) {
        Some((number, table)) => Some((number as u8, table)),
        None => None,
    }
}

/// The table of that name, and its number.
pub(crate) fn table_named<'a>(
    tables: &'a Catalogue,
    name: &Text,
) -> Result<(u8, &'a TableDef), CheckFault>
    requires { IsWithin tables.now }
    ensures found { Finds (λ x. (x.0, x.1.now)) result (table_named tables.now name.now) }
    ensures few { IfOk result (λ x. length x.1.now.columns ≤ 32) }
{
    match find_table(tables, name) {
        Some(found) => Ok(found),
        None => Err(no_table(name)),
    }
}

/// What a filter is, if there is one.
pub(crate) fn filter_of(
    check: &Check<'_>,
    filter: &Option<Expr>,
    known: &mut Known,
) -> Result<Option<TypedExpr>, CheckFault>
    ensures { Answers (λ e. e) result known.new.items
        (FilterOf (scope_of check.now.scope) filter.now known.old.items) }
{
    match filter {
        Some(filter) => {
            let typed = typed_at(check, asks_bool(), filter, known)?;
            Ok(Some(typed))
        }
        None => Ok(None),
    }
}
