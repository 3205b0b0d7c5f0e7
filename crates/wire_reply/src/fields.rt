//! The columns of a result as fields of a RowDescription.
ghost use Rattle.std.specs.Prelude.{◌≡◌, IfOk};
ghost use Rattle.wire_reply.specs.Rows.{size_of, field_of, fields_from};

use crate::formats::format_at;
use catalogue::ColumnDesc;
use pg_messages::Field;
use pg_values::{ColType, oid_of};
use pool_base::{List, NoMemory};
use std::alloc::Global;

/// The bytes of a value of a type, or -1 where they vary.
///
/// Source: PostgreSQL, "pg_type", the column `typlen`.
fn size_of(kind: ColType) -> i16
    ensures { result ≡ size_of kind }
{
    match kind {
        ColType::Bool => 1,
        ColType::Int4 => 4,
        ColType::Int8 | ColType::Moment => 8,
        ColType::Text => -1,
    }
}

fn field_of(alloc: Global, column: &ColumnDesc, format: u16) -> Result<Field, NoMemory>
    ensures { IfOk result (λ field. field ≡ field_of column.now format) }
{
    Ok(Field {
        name: List::from_slice(alloc, column.name.as_bytes())?,
        table: 0,
        column: 0,
        kind: oid_of(column.kind),
        size: size_of(column.kind),
        modifier: -1,
        format,
    })
}

/// The columns of a result, each with its format.
pub fn fields_of(
    alloc: Global,
    columns: &[ColumnDesc],
    formats: &[u16],
) -> Result<List<Field>, NoMemory>
    ensures { IfOk result (λ fields. fields ≡ fields_from formats.now 0 columns.now) }
{
    let mut fields = List::new(alloc);
    for column in columns {
        let format = format_at(formats, fields.len());
        fields.push(field_of(alloc, column, format)?)?;
    }
    Ok(fields)
}
