//! What the names of an expression may mean.
ghost use Rattle.std.specs.Prelude.{◌≡◌, ◌≤◌, Some, length};

use schema::TableDef;

/// The statement's table, if it has one, and whether its columns and parameters may stand.
#[derive(Clone, Copy)]
pub struct Scope<'a> {
    pub(crate) table: Option<&'a TableDef>,
    pub(crate) columns: bool,
    pub(crate) parameters: bool,
    ghost few: { (t : _) → table ≡ Some t → length t.now.columns ≤ 32 },
}
