//! Whose turn it is at the gate. The gate alone decides who goes in; here a session sleeps until it
//! will let it in, so that nobody asks again and again.
//!
//! A commit waits for the snapshots that are under way, and lets a number of others begin
//! meanwhile. Behind these none begins while one waits: those that are under way come to their
//! end, and the commits that wait go in together. Each needs a snapshot before it comes again.

use pool_base::{GateAnswer, GateCall};
use std::sync::{Condvar, Mutex, Wait};

/// How many snapshots may begin while commits wait.
const AHEAD: u32 = 32;

/// How many sessions stand where.
#[derive(Drop)]
struct Counts {
    in_snapshot: u32,
    in_commit: u32,
    commits_waiting: u32,
    /// How many snapshots have begun since a commit waits.
    ahead: u32,
}

impl Counts {
    /// Whether a snapshot may begin.
    fn may_begin(&self) -> bool {
        self.in_commit == 0 && (self.commits_waiting == 0 || self.ahead < AHEAD)
    }
}

/// Who stands at the gate, and those who sleep.
#[derive(Drop)]
pub(crate) struct Turns {
    counts: Mutex<Counts>,
    /// The commits that wait for snapshots.
    behind_snapshots: Condvar,
    /// The snapshots that wait for commits.
    behind_commits: Condvar,
}

impl Turns {
    /// Nobody is there.
    pub fn new() -> Turns {
        Turns {
            counts: Mutex::new(Counts {
                in_snapshot: 0,
                in_commit: 0,
                commits_waiting: 0,
                ahead: 0,
            }),
            behind_snapshots: Condvar::new(),
            behind_commits: Condvar::new(),
        }
    }

    /// Waits until that call may be made with success.
    pub fn wait<R: Wait>(&self, rt: &R, call: GateCall) {
        match call {
            GateCall::EnterSnapshot => self.wait_for_commits(rt),
            GateCall::EnterCommit { .. } => self.wait_for_snapshots(rt),
            _ => {}
        }
    }

    fn wait_for_commits<R: Wait>(&self, rt: &R) {
        let counts = self.counts.lock(rt);
        let mut counts = self
            .behind_commits
            .wait_while(rt, counts, |counts| !counts.may_begin());
        if counts.commits_waiting > 0 {
            counts.ahead = counts.ahead.saturating_add(1);
        }
        counts.in_snapshot = counts.in_snapshot.saturating_add(1);
    }

    fn wait_for_snapshots<R: Wait>(&self, rt: &R) {
        let mut counts = self.counts.lock(rt);
        counts.commits_waiting = counts.commits_waiting.saturating_add(1);
        let mut counts = self
            .behind_snapshots
            .wait_while(rt, counts, |counts| counts.in_snapshot > 0);
        counts.commits_waiting = counts.commits_waiting.saturating_sub(1);
        if counts.commits_waiting == 0 {
            counts.ahead = 0;
        }
        counts.in_commit = counts.in_commit.saturating_add(1);
    }

    /// That call was made, and this is the answer: who waits for it is woken.
    pub fn heed<R: Wait>(&self, rt: &R, call: GateCall, answer: GateAnswer) {
        let granted = matches!(answer, GateAnswer::Granted(_));
        match call {
            GateCall::EnterSnapshot if granted => {}
            GateCall::EnterSnapshot | GateCall::LeaveSnapshot => self.snapshot_is_over(rt),
            GateCall::EnterCommit { .. } if granted => {}
            GateCall::EnterCommit { .. } | GateCall::LeaveCommit => self.commit_is_over(rt),
            _ => {}
        }
    }

    fn snapshot_is_over<R: Wait>(&self, rt: &R) {
        let mut counts = self.counts.lock(rt);
        counts.in_snapshot = counts.in_snapshot.saturating_sub(1);
        if counts.in_snapshot == 0 {
            self.behind_snapshots.notify_all();
        }
    }

    fn commit_is_over<R: Wait>(&self, rt: &R) {
        let mut counts = self.counts.lock(rt);
        counts.in_commit = counts.in_commit.saturating_sub(1);
        if counts.may_begin() {
            self.behind_commits.notify_all();
        }
    }
}
