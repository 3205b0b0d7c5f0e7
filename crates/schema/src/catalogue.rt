//! The tables of a schema and their columns.
ghost use Rattle.std.specs.Prelude.{◌≡◌, ◌<◌, length, slice_get, option_map, IfSome, Some};
ghost use Rattle.named_list.specs.Names.{found_from};

use named_list::{Named, NamedList};
use pg_values::{ColType, Value};
use pool_base::Text;
use std::marker::Model;

/// What a cell has that an INSERT leaves out.
#[derive(PartialEq, Eq, Drop)]
pub enum Fill {
    /// Null.
    Nothing,
    /// The next number of the table.
    Serial,
    /// The moment of the transaction.
    Now,
    Constant(Value),
}

/// A column.
#[derive(PartialEq, Eq, Drop)]
pub struct ColumnDef {
    pub name: Text,
    pub kind: ColType,
    pub not_null: bool,
    pub fill: Fill,
}

impl Named for ColumnDef {
    ghost name_of = { λ column. column.name };

    fn name(&self) -> &str {
        self.name.as_str()
    }
}

/// A table.
#[derive(PartialEq, Eq, Drop)]
pub struct TableDef {
    pub name: Text,
    pub columns: NamedList<ColumnDef>,
    /// The number of its key column, from 0.
    pub key: u8,
    /// The number of its serial column, if it has one.
    pub serial: Option<u8>,
}

impl Named for TableDef {
    ghost name_of = { λ table. table.name };

    fn name(&self) -> &str {
        self.name.as_str()
    }
}

/// The tables of a schema, in its order, which contracts see as the list of them.
#[derive(Drop)]
pub struct Catalogue {
    tables: NamedList<TableDef>,
}

impl Model for Catalogue {
    ghost use Rattle.std.specs.Prelude.{List as Sequence};
    ghost use Rattle.schema.specs.declared.catalogue.TableDef.{TableDef};

    ghost Value = { Sequence TableDef };

    ghost view = { λ a. a.tables };
}

impl Catalogue {
    /// The catalogue of these tables. It takes no memory.
    pub fn new(tables: NamedList<TableDef>) -> Catalogue
        ensures { result ≡ tables }
    {
        Catalogue { tables }
    }

    /// The tables in the order of the schema.
    pub fn tables(&self) -> &[TableDef]
        ensures { result.now ≡ self.now }
    {
        self.tables.as_slice()
    }

    /// The table of that number, if there is one.
    pub fn table(&self, number: u8) -> Option<&TableDef>
        ensures { option_map (λ x. x.now) result ≡ slice_get self.now number }
    {
        self.tables.get(number as usize)
    }

    /// The first table of that name, and its number.
    pub fn find(&self, name: &str) -> Option<(usize, &TableDef)>
        ensures found { option_map (λ x. (x.0, x.1.now)) result
            ≡ found_from (λ t. t.name) 0 name.now self.now }
        ensures table { IfSome result (λ x. slice_get self.now x.0 ≡ Some x.1.now) }
        ensures within { IfSome result (λ x. x.0 < length self.now) }
    {
        self.tables.find(name)
    }
}
