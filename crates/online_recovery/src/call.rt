//! Where the gate's answer leads.
ghost use Rattle.std.specs.Prelude.{◌≡◌};

use crate::codes::{cannot_recover, under_way};
use crate::rules::{configured, is_shown, next_table, owed};
use crate::standing::{Due, Ending, GateStanding, Owed, Quiet, Standing, Task};
use pool_base::{BackendId, GateAnswer, View};
use session_machine::{counts_spent, lowest, no_backend};
use std::mem;

impl Standing {
    ghost use Rattle.session_machine.specs.Answers.{lowest};
    ghost use Rattle.online_recovery.specs.Asking.{gate_led};
    ghost use Rattle.online_recovery.specs.Rules.{with_view, numbered, looked, copy_started, snapshot_entered, copied_again, quiet_entered, given_back, granted, held_off, called, detached_at, detached};

    /// A new view.
    fn see(&mut self, view: View)
        ensures { self.new ≡ record self.old { held = with_view self.old.held view } }
    {
        let shown = view.attached.has(self.held.source);
        self.held.view = view;
        self.held.at_source = self.held.at_source && shown;
    }

    /// The backend of the order's number.
    fn aim(&mut self, b: Option<BackendId>)
        ensures { self.new ≡ numbered self.old.held b }
    {
        match b {
            None => self.refuse(cannot_recover()),
            Some(b) => {
                if is_shown(&self.held, b) {
                    self.refuse(cannot_recover());
                } else {
                    self.held.target = b;
                    self.owe(Due::StartDue);
                }
            }
        }
    }

    /// The first Look.
    fn looked(&mut self, number: u8, primary: Option<BackendId>)
        ensures { self.new ≡ looked self.old.held number primary }
    {
        match primary {
            None => self.refuse(no_backend()),
            Some(_) => {
                let b = configured(self.held.layout.nodes, number);
                self.aim(b);
            }
        }
    }

    /// The copy starts.
    fn copy_started(&mut self)
        ensures { self.new ≡ copy_started self.old.held }
    {
        if is_shown(&self.held, self.held.target) {
            self.refuse(cannot_recover());
        } else {
            self.owe(Due::SwapDue);
        }
    }

    /// Stage one begins.
    fn snapshot_entered(&mut self, primary: Option<BackendId>)
        ensures { self.new ≡ snapshot_entered self.old.held primary }
    {
        match primary {
            None => self.refuse(no_backend()),
            Some(b) => {
                self.held.source = b;
                self.owe(Due::PostDue(Task::OpeningSource));
            }
        }
    }

    fn copied_again(&mut self, table: Option<u8>)
        ensures { self.new ≡ copied_again self.old.held table }
    {
        match table {
            None => self.owe_numbers(),
            Some(_) => self.owe(Due::PostDue(Task::OpeningSource)),
        }
    }

    /// Stage two begins.
    fn quiet_entered(&mut self, primary: Option<BackendId>)
        ensures { self.new ≡ quiet_entered self.old.held primary }
    {
        match primary {
            None => self.refuse(no_backend()),
            Some(b) => {
                self.held.source = b;
                let first = next_table(&self.held, None);
                self.copied_again(first);
            }
        }
    }

    /// What the end gives back at the gate.
    fn give_back(&mut self, owed: Owed)
        ensures { self.new ≡ record self.old { held = given_back self.old.held owed } }
    {
        match owed {
            Owed::Transaction(_) | Owed::Nothing => {}
            Owed::Snapshot => self.held.gate = GateStanding::Live,
            Owed::LiveTransaction => self.held.gate = GateStanding::Out,
            Owed::TheQuiet => self.held.quiet = Quiet::Open,
        }
    }

    /// A call was seen or granted, and its view is taken.
    #[tactic(auto, unfolding(crate::specs::Rules::granted))]
    fn granted(&mut self, due: Due)
        ensures { self.new ≡ granted self.old.held due }
    {
        let primary = lowest(self.held.view.attached);
        match due {
            Due::LookDue(number) => self.looked(number, primary),
            Due::StartDue => {
                self.held.quiet = Quiet::Copying;
                self.copy_started();
            }
            Due::EnterDue => {
                self.held.gate = GateStanding::InSnapshot;
                self.snapshot_entered(primary);
            }
            Due::ShowDue(task, answer) => self.shown(task, answer),
            Due::LeaveSnapshotDue => {
                self.held.gate = GateStanding::Live;
                self.owe(Due::PostDue(Task::OpeningTarget));
            }
            Due::FinishDue => {
                self.held.gate = GateStanding::Out;
                self.owe(Due::AskDue);
            }
            Due::AskDue => {
                self.held.quiet = Quiet::Asked;
                self.owe(Due::QuietDue);
            }
            Due::QuietDue => {
                self.held.quiet = Quiet::Entered;
                self.held.touched = self.held.view.touched;
                self.quiet_entered(primary);
            }
            Due::AttachDue => self.owe(Due::Closing(Ending::Attached)),
            Due::Closing(ending) => {
                let next = owed(&self.held);
                self.give_back(next);
                self.owe(Due::Closing(ending));
            }
            other => self.owe(other),
        }
    }

    /// StartCopy that is held is not tried again.
    fn held_off(&mut self, due: Due)
        ensures { self.new ≡ held_off self.old.held due }
    {
        match due {
            Due::StartDue => self.refuse(under_way()),
            other => self.owe(other),
        }
    }

    /// The gate's answer to the call that was due.
    #[tactic(auto, unfolding(crate::specs::Rules::called))]
    fn called(&mut self, due: Due, answer: GateAnswer)
        ensures { self.new ≡ called self.old.held due answer }
    {
        match answer {
            GateAnswer::Seen(view) | GateAnswer::Granted(view) => {
                self.see(view);
                self.granted(due);
            }
            GateAnswer::Held(_) => self.held_off(due),
            GateAnswer::Spent => {
                drop(due);
                self.refuse(counts_spent());
            }
        }
    }

    /// The source is detached.
    fn parted(&mut self, due: Due)
        ensures { self.new ≡ detached_at self.old.held due }
    {
        match due {
            Due::LostDue(ending, _, _) => self.owe(Due::Closing(ending)),
            other => self.owe(other),
        }
    }

    /// The gate's answer to the detachment that was due.
    fn detached(&mut self, due: Due, answer: GateAnswer)
        ensures { self.new ≡ detached self.old.held due answer }
    {
        match answer {
            GateAnswer::Seen(view) | GateAnswer::Granted(view) => {
                self.see(view);
                self.parted(due);
            }
            GateAnswer::Held(_) | GateAnswer::Spent => self.owe(due),
        }
    }

    /// The gate's answer to what was due there.
    pub(crate) fn gate_answered(&mut self, answer: GateAnswer)
        ensures { self.new ≡ gate_led self.old.held self.old.due answer }
    {
        match mem::replace(&mut self.due, Due::Resting) {
            Due::LostDue(ending, before, after) => {
                self.detached(Due::LostDue(ending, before, after), answer);
            }
            other => self.called(other, answer),
        }
    }
}
