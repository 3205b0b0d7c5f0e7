//! What holds of the single run.
ghost use Rattle.std.specs.Prelude.{ℕ, List};
ghost use Rattle.schema.specs.declared.catalogue.TableDef.{TableDef};
ghost use Rattle.one_copy_model.specs.declared.deed.Entry.{Entry};
ghost use Rattle.one_copy_model.specs.SingleRun.{IsRun};
ghost use Rattle.one_copy_model.specs.Places.{rolls_back};
ghost use Rattle.one_copy_model.specs.Deaths.{recorded};

/// A rollback may come at any moment of a run.
pub fn runs_go_on()
    ensures { (tables : List TableDef) (s : ℕ) (history : List Entry) → IsRun tables history
        → IsRun tables (recorded s rolls_back history) }
{}
