//! Runs of the gate with the answers that its table gives.
use crate::{Gate, GateAnswer, GateCall};
use pool_base::{BackendId, BackendSet};

fn is_granted(answer: GateAnswer) -> bool {
    matches!(answer, GateAnswer::Granted(_))
}

#[test]
fn a_commit_waits_for_snapshots_and_a_snapshot_for_commits(rt: HostRuntime) {
    let mut gate = Gate::new(BackendSet { bits: 3 });
    assert!(rt; is_granted(gate.step(GateCall::EnterSnapshot)));
    assert!(rt; is_granted(gate.step(GateCall::LeaveSnapshot)));
    assert!(rt; is_granted(gate.step(GateCall::EnterSnapshot)));
    let enter = GateCall::EnterCommit { tables: 5 };
    assert!(rt; gate.step(enter) == GateAnswer::Held(1));
    assert!(rt; is_granted(gate.step(GateCall::LeaveSnapshot)));
    let GateAnswer::Granted(view) = gate.step(enter) else {
        panic!(rt; "the commit is held");
    };
    assert!(rt; view.attached.bits == 3 && view.epoch == 0 && view.touched == 5);
    assert!(rt; gate.step(GateCall::EnterSnapshot) == GateAnswer::Held(1));
}

#[test]
fn a_backend_leaves_once(rt: HostRuntime) {
    let mut gate = Gate::new(BackendSet { bits: 7 });
    let Some(b) = BackendId::from_number(1) else {
        panic!(rt; "no backend 1");
    };
    assert!(rt; is_granted(gate.step(GateCall::Detach { b })));
    let GateAnswer::Seen(view) = gate.step(GateCall::Detach { b }) else {
        panic!(rt; "detached twice");
    };
    assert!(rt; view.attached.bits == 5 && view.epoch == 1);
}
