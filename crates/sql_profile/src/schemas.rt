//! What holds of all schemas.
ghost use Rattle.std.specs.Prelude.{ℕ, List};
ghost use Rattle.schema.specs.declared.catalogue.TableDef.{TableDef};
ghost use Rattle.schema.specs.Reading.{Says};
ghost use Rattle.schema.specs.Allowed.{AreAllowed};

/// The tables that a text says are tables that a schema can have.
pub fn schemas_are_allowed()
    ensures { (text : List ℕ) (tables : List TableDef) → Says text tables → AreAllowed tables }
{}
