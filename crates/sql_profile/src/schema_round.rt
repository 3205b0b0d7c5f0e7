//! Reads a schema and writes it again.
ghost use Rattle.std.specs.Prelude.{◌≡◌, ◌<◌, ℕ, length, List as Sequence, IfOk, Err};
ghost use Rattle.schema.specs.declared.catalogue.TableDef.{TableDef};
ghost use Rattle.schema.specs.declared.fault.SchemaFault.TheVariants.{BadLine};
ghost use Rattle.schema.specs.Reading.{Says, IsFaulty};
ghost use Rattle.schema_print.specs.Printed.{IsSchemaText};
ghost use Rattle.sql_profile.specs.Written.{IsWritten};

use crate::schemas::schemas_are_allowed;
use pool_base::Text;
use schema::{SchemaFault, read_schema};
use schema_print::{print_schema, tables_in_range};
use std::alloc::Global;

/// The one text of the tables that a text says.
///
/// Shape: docs/SCHEMAS.md, "The written form".
pub fn schema_again(alloc: Global, text: &[u8]) -> Result<Text, SchemaFault>
    requires { length text.now < 4294967295 }
    // What is written is the text of the tables that were said, and says them again.
    ensures found { IfOk result (λ again. (tables : Sequence TableDef) × Says text.now tables
        × IsSchemaText tables again × Says again tables) }
    // What the text says is written, unless memory runs out.
    ensures only { (tables : Sequence TableDef) → Says text.now tables → IsWritten tables result }

    // Which line is faulty.
    ensures bad { (line : ℕ) → result ≡ Err (BadLine line) → IsFaulty text.now line }
{
    let tables = read_schema(alloc, text)?;
    tables_in_range();
    schemas_are_allowed();
    Ok(print_schema(alloc, &tables)?)
}
