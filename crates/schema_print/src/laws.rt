//! What holds of all schemas.
ghost use Rattle.std.specs.Prelude.{ℕ, List};
ghost use Rattle.schema.specs.declared.catalogue.TableDef.{TableDef};
ghost use Rattle.schema.specs.Reading.{Says};
ghost use Rattle.schema.specs.Ranges.{AreInRange};

/// What a text says has only moments in their range, so `print_schema` may be called with it.
pub fn tables_in_range()
    ensures { (text : List ℕ) (tables : List TableDef) → Says text tables → AreInRange tables }
{}
