//! Where a post, an answer and a loss lead.
ghost use Rattle.std.specs.Prelude.{◌≡◌, ◌<◌, length};
ghost use Rattle.session_engine.specs.Meaning.{heard_in, session_of, machine_of};
ghost use Rattle.session_engine.specs.Dues.{IsPosting, IsWaiting};

use crate::due::Due;
use crate::standing::Standing;
use backend_trait::Answer;
use pool_base::BackendId;
use session_machine::{Heard, stage_posted};
use std::mem;

impl Standing {
    ghost use Rattle.session_machine.specs.Rules.{posted, taken, faulted};

    /// The request that was due is posted.
    pub(crate) fn posted(&mut self)
        requires { IsPosting self.old.due }
        ensures { machine_of self.new ≡ posted (session_of self.old) (machine_of self.old).point }
    {
        match mem::replace(&mut self.due, Due::Resting) {
            Due::PostDue(stage, b) => self.owe(Due::Waiting(stage_posted(stage), b)),
            _ => unreachable!(),
        }
    }

    /// The answer that was waited for is taken.
    pub(crate) fn taken(&mut self, b: BackendId, answer: Answer)
        requires due { IsWaiting self.old.due }
        requires room { length (heard_in self.old) < 8 }
        ensures { machine_of self.new ≡ taken (session_of self.old) b answer
            (machine_of self.old).point }
    {
        match mem::replace(&mut self.due, Due::Resting) {
            Due::Waiting(stage, _) => {
                self.answers.push(Heard { b, answer });
                self.owe(Due::LookDue(stage));
            }
            _ => unreachable!(),
        }
    }

    /// The backend that was waited for is lost.
    pub(crate) fn faulted(&mut self, before: u64, after: u64)
        requires { IsWaiting self.old.due }
        ensures { machine_of self.new ≡ faulted (session_of self.old) before after
            (machine_of self.old).point }
    {
        match mem::replace(&mut self.due, Due::Resting) {
            Due::Waiting(stage, b) => self.owe(Due::LostDue(stage, b, before, after)),
            _ => unreachable!(),
        }
    }
}
