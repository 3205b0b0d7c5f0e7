//! The columns that the names of an expression mean.
ghost use Rattle.std.specs.Prelude.{◌≡◌, ◌≤◌, Some, is_some, length};
ghost use Rattle.std.specs.Option.{option_map};
ghost use Rattle.typed_sql.specs.Own.{alone, beside, over, column_from, column_of, column_meant, wrong_table, kind_meant};
ghost use Rattle.typed_sql.specs.Meaning.{scope_of, Finds};

use crate::fault::{CheckFault, no_column, no_table};
use crate::scope::Scope;
use named_list::NamedList;
use pg_values::ColType;
use pool_base::Text;
use schema::{ColumnDef, TableDef};

/// The column of that name among these, and its number.
fn find_column<'a>(columns: &'a NamedList<ColumnDef>, name: &Text) -> Option<(u8, &'a ColumnDef)>
    requires { length columns.now ≤ 32 }
    ensures { option_map (λ x. (x.0, x.1.now)) result ≡ column_from 0 name.now columns.now }
{
    match columns.find(name.as_str()) {
        Some((number, column)) => Some((number as u8, column)),
        None => None,
    }
}

impl<'a> Scope<'a> {
    /// Over the rows of a table.
    pub fn over(table: &'a TableDef, parameters: bool) -> Scope<'a>
        requires { length table.now.columns ≤ 32 }
        ensures { scope_of result ≡ over parameters table.now }
    {
        Scope {
            table: Some(table),
            columns: true,
            parameters,
        }
    }

    /// In a row that goes into a table: none of its columns may stand.
    pub fn beside(table: &'a TableDef, parameters: bool) -> Scope<'a>
        requires { length table.now.columns ≤ 32 }
        ensures { scope_of result ≡ beside parameters table.now }
    {
        Scope {
            table: Some(table),
            columns: false,
            parameters,
        }
    }

    /// Without a table.
    pub fn alone(parameters: bool) -> Scope<'a>
        ensures { scope_of result ≡ alone parameters }
    {
        Scope {
            table: None,
            columns: false,
            parameters,
        }
    }

    fn column(&self, name: &Text) -> Option<(u8, &'a ColumnDef)>
        ensures { option_map (λ x. (x.0, x.1.now)) result
            ≡ column_of (scope_of self.now).table (scope_of self.now).columns name.now }
    {
        match self.table {
            Some(table) if self.columns => find_column(&table.columns, name),
            _ => None,
        }
    }

    /// Whether a table's name before a column is another than that of the statement's table.
    fn is_wrong_table(&self, qualifier: &Text) -> bool
        ensures { result ≡ is_some (wrong_table (scope_of self.now).table (Some qualifier.now)) }
    {
        match self.table {
            Some(table) => table.name != *qualifier,
            None => true,
        }
    }

    /// The column that is meant, and its number.
    pub fn column_meant(
        &self,
        qualifier: &Option<Text>,
        name: &Text,
    ) -> Result<(u8, &'a ColumnDef), CheckFault>
        ensures { Finds (λ x. (x.0, x.1.now)) result (column_meant
            (scope_of self.now) qualifier.now name.now) }
    {
        if let Some(qualifier) = qualifier {
            if self.is_wrong_table(qualifier) {
                return Err(no_table(qualifier));
            }
        }
        match self.column(name) {
            Some(column) => Ok(column),
            None => Err(no_column(name)),
        }
    }

    /// The type of the column that is meant, if there is one.
    pub(crate) fn kind_meant(&self, qualifier: &Option<Text>, name: &Text) -> Option<ColType>
        ensures { result ≡ kind_meant (column_meant (scope_of self.now) qualifier.now name.now) }
    {
        if let Some(qualifier) = qualifier {
            if self.is_wrong_table(qualifier) {
                return None;
            }
        }
        match self.column(name) {
            Some((_, column)) => Some(column.kind),
            None => None,
        }
    }
}
