//! Marks of the requests that are crossed.
ghost use Rattle.std.specs.Prelude.{◌≡◌, ◌<◌, ◌≤◌, OnOk, OnErr, length};
ghost use Rattle.plain_store.specs.Meaning.{store_of};
ghost use Rattle.backend_trait.specs.Acting.{IsMarked};
ghost use Rattle.plain_store.specs.States.{AreAll, states_of};
ghost use Rattle.plain_store.specs.Deciding.{marked_if, marks_below};

use crate::crossing::crosses_waiting;
use crate::data::Database;
use crate::given::all_given;
use crate::sessions::Sessions;
use pool_base::NoMemory;

/// Marks a session where its request is crossed.
fn mark_if(is_crossed: bool, s: usize, marks: &mut Vec<bool>)
    requires { s < length marks.old.items }
    ensures marks { marks.new.items ≡ marked_if is_crossed s marks.old.items }
    ensures len { length marks.new.items ≡ length marks.old.items }
{
    if is_crossed {
        marks[s] = true;
    }
}

/// Marks the sessions below a number whose requests are crossed.
fn mark_below(all: Sessions<'_>, marks: &mut Vec<bool>, n: usize)
    requires all { AreAll all }
    requires marks { length marks.old.items ≡ 65 }
    requires n { n ≤ 65 }
    ensures marks { marks.new.items ≡ marks_below (states_of all.entry) marks.old.items n }
    ensures len { length marks.new.items ≡ length marks.old.items }
{
    if n == 0 {
        return;
    }
    mark_below(all, marks, n - 1);
    mark_if(crosses_waiting(all, n - 1), n - 1, marks);
}

impl Database {
    /// Marks the requests that another session crosses now. A mark stays until the answer.
    pub fn mark(&mut self) -> Result<(), NoMemory>
        ensures marked { OnOk result (IsMarked (store_of self.old) (store_of self.new)) }
        ensures unmarked { OnErr result (store_of self.new ≡ store_of self.old) }
    {
        let given = all_given(self)?;
        let phases = self.phases.as_slice();
        let requests = self.requests.as_slice();
        let gives = given.as_slice();
        let all = Sessions {
            phases,
            requests,
            given: gives,
            numbers: &self.numbers,
        };
        mark_below(all, &mut self.crossed, 65);
        Ok(())
    }
}
