//! Which answers of a server are faults.
ghost use Rattle.std.specs.Prelude.{◌≡◌, ◌<◌, ◌+◌, ◌^◌, ◌++◌, length, option_copied, IfOk, OnOk};
ghost use Rattle.server_check.specs.Faults.{fault_at, faults, faults_from, is_good};
ghost use Rattle.server_check.specs.Servers.{meets};

use crate::answer::Answer;
use crate::question::Question;
use pool_base::{List, NoMemory};
use std::alloc::Global;

/// Whether an answer is a text, and the wanted one where one is wanted.
pub(crate) fn meets(question: &Question, answer: &Answer) -> bool
    ensures { result ≡ meets question.now.wanted answer.now }
{
    match (answer, &question.wanted) {
        (Answer::Told(text), Some(wanted)) => *text == *wanted,
        (Answer::Told(_), None) => true,
        (Answer::Nothing | Answer::Refused(_), _) => false,
    }
}

/// Whether the answers to a question are there and the same, and meet it.
fn is_good(question: &Question, kept: Option<&Answer>, told: Option<&Answer>) -> bool
    ensures { result ≡ is_good question.now (option_copied kept.entry) (option_copied told.entry) }
{
    match (kept, told) {
        (Some(kept), Some(told)) => *told == *kept && meets(question, told),
        (None, _) | (_, None) => false,
    }
}

/// Puts the number of a question behind the others, where its answer is a fault.
fn put_fault(
    question: &Question,
    number: usize,
    kept: &[Answer],
    told: &[Answer],
    onto: &mut List<usize>,
) -> Result<(), NoMemory>
    ensures { OnOk result (onto.new
        ≡ onto.old ++ fault_at kept.now told.now number question.now) }
{
    if is_good(question, kept.get(number), told.get(number)) {
        return Ok(());
    }
    onto.push(number)
}

/// Puts the numbers of the faulty answers, from that question on, behind the others.
fn put_faults(
    questions: &[Question],
    number: usize,
    kept: &[Answer],
    told: &[Answer],
    onto: &mut List<usize>,
) -> Result<(), NoMemory>
    requires { number + length questions.now < 2 ^ 64 }
    ensures { OnOk result (onto.new
        ≡ onto.old ++ faults_from kept.now told.now number questions.now) }
{
    let [question, others @ ..] = questions else {
        return Ok(());
    };
    put_fault(question, number, kept, told, onto)?;
    put_faults(others, number + 1, kept, told, onto)
}

/// The numbers of the questions that a server answers otherwise than it is to.
pub(crate) fn faults(
    alloc: Global,
    questions: &[Question],
    kept: &[Answer],
    told: &[Answer],
) -> Result<List<usize>, NoMemory>
    ensures { IfOk result (λ found. found ≡ faults questions.now kept.now told.now) }
{
    let mut found = List::new(alloc);
    put_faults(questions, 0, kept, told, &mut found)?;
    Ok(found)
}
