//! The tables of a schema, or why it is refused.
ghost use Rattle.std.specs.Prelude.{◌≡◌, ◌≤◌, length, IfOk, IfSome, string_bytes};
ghost use Rattle.schema.specs.Allowed.{AreAllowed};
ghost use Rattle.schema.specs.Ranges.{AreInRange};
ghost use Rattle.pool_run.specs.Schemas.{IsSchemaAnswer, bad_schema_line};

use pool_base::{List, NoMemory};
use schema::{Catalogue, SchemaFault, read_schema};
use schema_print::tables_in_range;
use sql_profile::schemas_are_allowed;
use std::alloc::Global;

/// Why a schema is refused, or was not read.
#[derive(Clone, Copy, Drop)]
pub enum SchemaStop {
    /// It is above its limit in bytes.
    TooLong,
    /// It is faulty in this line.
    BadLine(u32),
    /// Memory was refused.
    NoMemory,
}

/// The tables that the schema says.
pub fn read_tables(alloc: Global, schema: &Option<List<u8>>) -> Result<Catalogue, SchemaStop>
    requires { IfSome schema.now (λ text. length text ≤ 262144) }
    ensures answer { IsSchemaAnswer schema.now result }
    ensures in_range { IfOk result AreInRange }
    ensures allowed { IfOk result AreAllowed }
{
    let Some(text) = schema else {
        return Err(SchemaStop::TooLong);
    };
    match read_schema(alloc, text.as_slice()) {
        Ok(catalogue) => {
            tables_in_range();
            schemas_are_allowed();
            Ok(catalogue)
        }
        Err(SchemaFault::BadLine(line)) => Err(SchemaStop::BadLine(line)),
        Err(SchemaFault::NoMemory) => Err(SchemaStop::NoMemory),
    }
}

/// The line that names a bad line of the schema.
pub fn bad_schema_line(alloc: Global, number: u32) -> Result<String, NoMemory>
    ensures { IfOk result (λ text. string_bytes text ≡ bad_schema_line number) }
{
    Ok(format!(in alloc; "pool: schema line {number}: bad line\n")?)
}
