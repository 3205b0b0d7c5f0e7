//! What the deeds of a served session are to its machine.
ghost use Rattle.std.specs.Prelude.{List};
ghost use Rattle.session_machine.specs.declared.action.SessionEvent.{SessionEvent};
ghost use Rattle.serve_steps.specs.Deeds.{Deed};
ghost use Rattle.pool_server.specs.Machines.{AreOfAll, IsRun};
ghost use Rattle.serve_steps.specs.Places.{Place, Runs, Setting};

/// The events of the deeds, in their order, are a run of the machine: each may come where the one
/// before it has led.
pub fn deeds_are_a_run()
    ensures run { (w : Setting) (old : Place) (deeds : List Deed) (new : Place)
        → Runs w old deeds new → (these : List SessionEvent)
        × AreOfAll deeds these × IsRun old.machine these new.machine }
{}
