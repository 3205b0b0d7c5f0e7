//! Calls of the gate, and their answers.
ghost use Rattle.std.specs.Prelude.{◌≡◌, ◌++◌, OnOk, string_bytes};
ghost use Rattle.journal.specs.Calls.{spelled_call, spelled_gate_answer};

use crate::pieces::{push_counted, push_set, push_word};
use pool_base::{GateAnswer, GateCall, NoMemory};

pub(crate) fn push_call(call: GateCall, onto: &mut String) -> Result<(), NoMemory>
    ensures { OnOk result (string_bytes onto.new ≡ string_bytes onto.old ++ spelled_call call) }
{
    match call {
        GateCall::Look => push_word("look", onto),
        GateCall::EnterSnapshot => push_word("enter-snapshot", onto),
        GateCall::LeaveSnapshot => push_word("leave-snapshot", onto),
        GateCall::EnterCommit { tables } => push_counted("enter-commit ", tables, onto),
        GateCall::LeaveCommit => push_word("leave-commit", onto),
        GateCall::Finish => push_word("finish", onto),
        GateCall::Detach { b } => push_counted("detach ", u64::from(b.number), onto),
        GateCall::StartCopy => push_word("start-copy", onto),
        GateCall::AskQuiet => push_word("ask-quiet", onto),
        GateCall::EnterQuiet => push_word("enter-quiet", onto),
        GateCall::Attach { b } => push_counted("attach ", u64::from(b.number), onto),
        GateCall::LeaveQuiet => push_word("leave-quiet", onto),
    }
}

pub(crate) fn push_gate_answer(answer: GateAnswer, onto: &mut String) -> Result<(), NoMemory>
    ensures { OnOk result (string_bytes onto.new
        ≡ string_bytes onto.old ++ spelled_gate_answer answer) }
{
    match answer {
        GateAnswer::Seen(view) => {
            push_word("seen", onto)?;
            push_set(view.attached, onto)
        }
        GateAnswer::Granted(view) => {
            push_word("granted", onto)?;
            push_set(view.attached, onto)
        }
        GateAnswer::Held(by) => push_counted("held ", u64::from(by), onto),
        GateAnswer::Spent => push_word("spent", onto),
    }
}
