//! Which calls of an object in memory are to fail.
ghost use Rattle.std.specs.Prelude.{◌≡◌, ◌≤◌, true, false, [], IsTrue};
ghost use Rattle.pool_base.specs.Outside.{Rose};
ghost use Rattle.pool_base.specs.Planned.{next_call, is_planned};

use crate::list::List;

/// The numbers of the calls that are to fail, and the counts of calls and of faults.
#[derive(Drop)]
pub struct FaultPlan {
    pub fails: List<u64>,
    pub calls: u64,
    pub faults: u64,
}

impl FaultPlan {
    pub fn new(fails: List<u64>) -> FaultPlan
        ensures fails { result.fails ≡ fails }
        ensures calls { result.calls ≡ 0 }
        ensures faults { result.faults ≡ 0 }
    {
        FaultPlan {
            fails,
            calls: 0,
            faults: 0,
        }
    }

    /// Counts a call, and a fault if that call is to fail. Tells whether it is.
    pub fn next_fails(&mut self) -> bool
        ensures answer { result ≡ is_planned self.old.fails self.old.calls }
        ensures risen { result ≡ true → Rose self.old.faults self.new.faults }
        ensures same { result ≡ false → self.new.faults ≡ self.old.faults }
        ensures later { self.old.faults ≤ self.new.faults }
        ensures calls { self.new.calls ≡ next_call self.old.calls }
        ensures kept { self.new.fails ≡ self.old.fails }
    {
        self.calls = self.calls.saturating_add(1);
        if self.fails.as_slice().contains(&self.calls) {
            self.fault();
            return true;
        }
        false
    }

    /// Counts a fault.
    pub fn fault(&mut self)
        ensures risen { Rose self.old.faults self.new.faults }
        ensures later { self.old.faults ≤ self.new.faults }
        ensures calls { self.new.calls ≡ self.old.calls }
        ensures kept { self.new.fails ≡ self.old.fails }
    {
        self.faults = self.faults.saturating_add(1);
    }
}
