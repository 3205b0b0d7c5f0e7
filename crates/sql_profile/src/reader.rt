//! The reader of texts, with what its refusals are named by.
ghost use Rattle.std.specs.Prelude.{◌<◌, ◌^◌, length, IfOk, IfErr};
ghost use Rattle.sql_reader.specs.declared.fault.SqlFault.TheVariants.{Syntax, TooLong};
ghost use Rattle.sql_reader.specs.Text.{IsTextOf, IsReadAs, IsToldAs};
ghost use Rattle.sql_profile.specs.Named.{IsNamedBy, LacksFromAt, HasTooMany};

use pool_base::List;
use sql_reader::SqlFault;
use sql_tree::Statement;
use std::alloc::Global;

/// Reads the statements of a text.
///
/// Shape: docs/SQL.md. Nothing may stand between two `;`, before the first and behind the last.
/// Units: a place counts bytes, from 0.
/// Source: PostgreSQL 15, "SQL Commands", of which this is a part.
pub fn read_statements(alloc: Global, text: &str) -> Result<List<Statement>, SqlFault>
    requires { length text.now < 2 ^ 32 }
    // What is read is of the grammar and within the limits, and what is so is read.
    ensures found { IfOk result (IsTextOf text.now) }
    ensures only { (all : _) → IsTextOf text.now all → IsReadAs result all }

    // What is refused goes wrong at the place that is told, or passes a limit, and is told what the
    // rules say of what is due at the token that is refused.
    ensures named { IfErr result (IsNamedBy text.now) }
    // What is wrong behind a `*` or `count(*)` without FROM, or behind a statement too many, is not
    // told.
    ensures without_from { (place : _) → LacksFromAt text.now place
        → IsToldAs result (Syntax place) }
    ensures too_many { HasTooMany text.now → IsToldAs result TooLong }
{
    sql_reader::read_statements(alloc, text)
}
