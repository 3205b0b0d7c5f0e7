//! Where an answer leads: the copy of the tables and of their serial numbers.
ghost use Rattle.online_recovery.specs.State;
ghost use Rattle.std.specs.Prelude.{◌≡◌, None};
ghost use Rattle.session_machine.specs.Rules.{refusal_of};

use crate::codes::lost_on_the_way;
use crate::rules::{is_shown, next_serial, next_table, side_of};
use crate::standing::{Due, GateStanding, Side, Standing, Task};
use backend_trait::Answer;
use pool_base::List;
use session_machine::refusal_of;
use sql_eval::Row;

impl Standing {
    ghost use Rattle.online_recovery.specs.Rules.{serial_due, numbers_due, source_opened, table_due, rows_read, filled, source_left, serial_read, proceeded, answered, shown, heard, taken_at, over};

    /// The next number, or the end of the transaction in which numbers are set.
    fn owe_serial(&mut self, table: Option<u8>)
        ensures { self.new ≡ serial_due self.old.held table }
    {
        match table {
            None => self.owe(Due::PostDue(Task::ClosingNumbers)),
            Some(table) => self.owe(Due::PostDue(Task::ReadingSerial(table))),
        }
    }

    /// The numbers, or the attachment.
    pub(crate) fn owe_numbers(&mut self)
        ensures { self.new ≡ numbers_due self.old.held
            (Rattle.online_recovery.specs.State.next_serial self.old.held None) }
    {
        match next_serial(&self.held, None) {
            None => self.owe(Due::AttachDue),
            Some(_) => self.owe(Due::PostDue(Task::OpeningNumbers)),
        }
    }

    fn open_source(&mut self)
        ensures { self.new ≡ source_opened self.old.held self.old.held.gate }
    {
        match self.held.gate {
            GateStanding::InSnapshot => self.owe(Due::LeaveSnapshotDue),
            GateStanding::Live | GateStanding::Out => self.owe(Due::PostDue(Task::OpeningTarget)),
        }
    }

    /// The next table, or the commit at the target.
    fn owe_table(&mut self, table: Option<u8>)
        ensures { self.new ≡ table_due self.old.held table }
    {
        match table {
            None => self.owe(Due::PostDue(Task::Committing)),
            Some(table) => self.owe(Due::PostDue(Task::Reading(table))),
        }
    }

    /// The rows of a table have come.
    fn read_rows(&mut self, table: u8, answer: Answer)
        ensures { self.new ≡ rows_read self.old.held table answer }
    {
        match answer {
            Answer::Rows(rows) => self.owe(Due::PostDue(Task::Emptying(table, rows))),
            Answer::Began | Answer::Count(_) | Answer::Locked | Answer::Done | Answer::Serial(_) =>
                self.refuse(lost_on_the_way()),
            Answer::Refused(code) => self.refuse(code),
        }
    }

    /// So many of the rows are to come.
    fn fill(&mut self, table: u8, rows: List<Row>, left: usize)
        ensures { self.new ≡ filled self.old.held table rows left }
    {
        if left == 0 {
            drop(rows);
            let next = next_table(&self.held, Some(table));
            self.owe_table(next);
        } else {
            self.owe(Due::PostDue(Task::Filling(table, rows, left - 1)));
        }
    }

    /// The transaction at the source is over.
    fn leave_source(&mut self)
        ensures { self.new ≡ source_left self.old.held self.old.held.gate }
    {
        match self.held.gate {
            GateStanding::Live => self.owe(Due::FinishDue),
            GateStanding::InSnapshot | GateStanding::Out => self.owe_numbers(),
        }
    }

    fn read_serial(&mut self, table: u8, answer: Answer)
        ensures { self.new ≡ serial_read self.old.held table answer }
    {
        match answer {
            Answer::Serial(next) => self.owe(Due::PostDue(Task::LockingSerial(table, next))),
            Answer::Began | Answer::Rows(_) | Answer::Count(_) | Answer::Locked | Answer::Done =>
                self.refuse(lost_on_the_way()),
            Answer::Refused(code) => self.refuse(code),
        }
    }

    /// The request of a task is done.
    fn proceed(&mut self, task: Task, answer: Answer)
        ensures { self.new ≡ proceeded self.old.held task answer }
    {
        match task {
            Task::OpeningSource => self.open_source(),
            Task::OpeningTarget => {
                let first = next_table(&self.held, None);
                self.owe_table(first);
            }
            Task::Reading(table) => self.read_rows(table, answer),
            Task::Emptying(table, rows) => {
                let count = rows.len();
                self.fill(table, rows, count);
            }
            Task::Filling(table, rows, left) => self.fill(table, rows, left),
            Task::Committing => self.owe(Due::PostDue(Task::Leaving)),
            Task::Leaving => self.leave_source(),
            Task::OpeningNumbers => {
                let first = next_serial(&self.held, None);
                self.owe_serial(first);
            }
            Task::ReadingSerial(table) => self.read_serial(table, answer),
            Task::LockingSerial(table, next) => {
                self.owe(Due::PostDue(Task::SettingSerial(table, next)));
            }
            Task::SettingSerial(table, _) => {
                let next = next_serial(&self.held, Some(table));
                self.owe_serial(next);
            }
            Task::ClosingNumbers => self.owe(Due::AttachDue),
        }
    }

    fn answered(&mut self, task: Task, answer: Answer)
        ensures { self.new ≡ answered self.old.held task answer (refusal_of answer) }
    {
        match refusal_of(&answer) {
            None => self.proceed(task, answer),
            Some(code) => {
                drop(task);
                drop(answer);
                self.refuse(code);
            }
        }
    }

    /// A Look behind an answer of the source.
    #[tactic(auto, unfolding(crate::specs::Rules::shown))]
    pub(crate) fn shown(&mut self, task: Task, answer: Answer)
        ensures { self.new ≡ shown self.old.held task answer }
    {
        if is_shown(&self.held, self.held.source) {
            self.answered(task, answer);
        } else {
            drop(task);
            drop(answer);
            self.refuse(lost_on_the_way());
        }
    }

    /// What an answer begins or ends.
    fn hear(&mut self, task: &Task)
        ensures { self.new ≡ record self.old { held = heard self.old.held task.now } }
    {
        match task {
            Task::OpeningSource => self.held.at_source = true,
            Task::OpeningTarget | Task::OpeningNumbers => self.held.at_target = true,
            Task::Committing | Task::ClosingNumbers => self.held.at_target = false,
            Task::Leaving => self.held.at_source = false,
            Task::Reading(_)
            | Task::Emptying(_, _)
            | Task::Filling(_, _, _)
            | Task::ReadingSerial(_)
            | Task::LockingSerial(_, _)
            | Task::SettingSerial(_, _) => {}
        }
    }

    /// The answer to the request of a task.
    pub(crate) fn take(&mut self, task: Task, answer: Answer)
        ensures { self.new ≡ taken_at (heard self.old.held task) task answer
            (Rattle.online_recovery.specs.State.side_of task) }
    {
        self.hear(&task);
        match side_of(&task) {
            Side::Source => self.owe(Due::ShowDue(task, answer)),
            Side::Target => self.answered(task, answer),
        }
    }

    /// A transaction is over.
    pub(crate) fn over(&mut self, side: Side)
        ensures { self.new ≡ record self.old { held = over self.old.held side } }
    {
        match side {
            Side::Source => self.held.at_source = false,
            Side::Target => self.held.at_target = false,
        }
    }
}
