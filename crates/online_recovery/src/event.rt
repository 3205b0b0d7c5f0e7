//! Where an order, a swap, a post, an answer and a loss lead.
ghost use Rattle.std.specs.Prelude.{◌≡◌};
ghost use Rattle.online_recovery.specs.declared.standing.Due.TheVariants as dues;

use crate::codes::lost_on_the_way;
use crate::rules::{owed, side_of};
use crate::standing::{Due, Ending, Owed, Side, Standing};
use backend_trait::Answer;
use std::mem;

impl Standing {
    ghost use Rattle.online_recovery.specs.Rules.{left, swapped, undone, posted, taken, lost_at, faulted};

    /// The order to bring in the backend of a number.
    pub(crate) fn begin(&mut self, number: u8)
        ensures { self.new ≡ Rattle.online_recovery.specs.Rules.due self.old.held
            (dues.LookDue number) }
    {
        self.owe(Due::LookDue(number));
    }

    /// The client is gone.
    pub(crate) fn left(&mut self)
        ensures { self.new ≡ left self.old.held self.old.due }
    {
        match mem::replace(&mut self.due, Due::Resting) {
            Due::LostDue(_, before, after) => {
                self.owe(Due::LostDue(Ending::Leaves, before, after));
            }
            other => {
                drop(other);
                self.owe(Due::Closing(Ending::Leaves));
            }
        }
    }

    /// A blank backend stands in the target's place.
    pub(crate) fn swapped(&mut self)
        ensures { self.new ≡ swapped self.old.held self.old.due }
    {
        match mem::replace(&mut self.due, Due::Resting) {
            Due::SwapDue => self.owe(Due::EnterDue),
            other => self.owe(other),
        }
    }

    /// A rollback of the end is posted.
    fn undo(&mut self, ending: Ending, owed: Owed)
        ensures { self.new ≡ undone self.old.held ending owed }
    {
        match owed {
            Owed::Transaction(side) => self.owe(Due::Undoing(side, ending)),
            Owed::Snapshot | Owed::LiveTransaction | Owed::TheQuiet | Owed::Nothing => {
                self.owe(Due::Closing(ending));
            }
        }
    }

    /// The request that was due is posted.
    pub(crate) fn posted(&mut self)
        ensures { self.new ≡ posted self.old.held self.old.due }
    {
        match mem::replace(&mut self.due, Due::Resting) {
            Due::PostDue(task) => self.owe(Due::Waiting(task)),
            Due::Closing(ending) => {
                let next = owed(&self.held);
                self.undo(ending, next);
            }
            other => self.owe(other),
        }
    }

    /// The answer that was waited for is taken.
    #[tactic(auto, unfolding(crate::specs::Rules::taken))]
    pub(crate) fn taken(&mut self, answer: Answer)
        ensures { self.new ≡ taken self.old.held self.old.due answer }
    {
        match mem::replace(&mut self.due, Due::Resting) {
            Due::Waiting(task) => self.take(task, answer),
            Due::Undoing(side, ending) => {
                drop(answer);
                self.over(side);
                self.owe(Due::Closing(ending));
            }
            other => {
                drop(answer);
                self.owe(other);
            }
        }
    }

    /// A loss is seen.
    fn lose(&mut self, side: Side, ending: Ending, before: u64, after: u64)
        ensures { self.new ≡ lost_at self.old.held side ending before after }
    {
        self.over(side);
        match side {
            Side::Source => self.owe(Due::LostDue(ending, before, after)),
            Side::Target => self.owe(Due::Closing(ending)),
        }
    }

    /// The backend that was waited for is lost.
    pub(crate) fn faulted(&mut self, before: u64, after: u64)
        ensures { self.new ≡ faulted self.old.held self.old.due before after }
    {
        match mem::replace(&mut self.due, Due::Resting) {
            Due::Waiting(task) => {
                let side = side_of(&task);
                drop(task);
                self.lose(side, Ending::Refused(lost_on_the_way()), before, after);
            }
            Due::Undoing(side, ending) => self.lose(side, ending, before, after),
            other => self.owe(other),
        }
    }
}
