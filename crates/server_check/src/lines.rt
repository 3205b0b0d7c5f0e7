//! The lines that an operator reads.
ghost use Rattle.std.specs.Prelude.{◌≡◌, ◌+◌, ◌↔◌, [], length, sum_by, IfOk, OnOk};
ghost use Rattle.server_check.specs.Faults.{AreEqual, fault_count};

use crate::answer::Answer;
use crate::faults::{faults, meets};
use crate::question::Question;
use crate::server::Server;
use pool_base::{List, NoMemory, Text};
use std::alloc::{AllocError, Global};
use std::fmt::Write;

/// What is to be told in place of a faulty answer.
fn write_wanted(
    text: &mut String,
    question: &Question,
    told: &Answer,
    kept: Option<&Server>,
    number: usize,
) -> Result<(), AllocError> {
    if let Some(wanted) = &question.wanted
        && !meets(question, told)
    {
        let wanted = wanted.as_str();
        return write!(text, "; wanted is {wanted}");
    }
    if let Some(kept) = kept
        && let Some(answer) = kept.answers.get(number)
        && *answer != *told
    {
        let b = kept.number.number;
        return write!(text, "; backend {b} has {answer}");
    }
    Ok(())
}

/// What a server answers to a question of that number, and what it is to answer.
pub fn difference(
    alloc: Global,
    questions: &[Question],
    kept: Option<&Server>,
    server: &Server,
    number: usize,
) -> Result<String, NoMemory> {
    let mut text = String::new(alloc);
    if let (Some(question), Some(told)) = (questions.get(number), server.answers.get(number)) {
        let subject = question.subject.as_str();
        write!(text, "{subject}: {told}")?;
        write_wanted(&mut text, question, told, kept, number)?;
    }
    Ok(text)
}

/// The line of the answer to a question of that number.
fn line_of(
    alloc: Global,
    questions: &[Question],
    kept: &Server,
    server: &Server,
    number: usize,
) -> Result<Text, NoMemory> {
    let b = server.number.number;
    let what = difference(alloc, questions, Some(kept), server, number)?;
    let text = format!(in alloc; "backend {b}: {what}")?;
    Ok(Text::from_string(text))
}

/// Puts a line for each of these answers of a server behind the others.
fn put_lines(
    alloc: Global,
    questions: &[Question],
    kept: &Server,
    server: &Server,
    numbers: &[usize],
    onto: &mut List<Text>,
) -> Result<(), NoMemory>
    ensures { OnOk result (length onto.new ≡ length onto.old + length numbers.now) }
{
    let [number, others @ ..] = numbers else {
        return Ok(());
    };
    onto.push(line_of(alloc, questions, kept, server, *number)?)?;
    put_lines(alloc, questions, kept, server, others, onto)
}

/// Puts a line for each fault of a server behind the others.
fn put_server(
    alloc: Global,
    questions: &[Question],
    kept: &Server,
    server: &Server,
    onto: &mut List<Text>,
) -> Result<(), NoMemory>
    ensures { OnOk result (length onto.new ≡ length onto.old
        + fault_count questions.now kept.now server.now) }
{
    let (right, told) = (kept.answers.as_slice(), server.answers.as_slice());
    let found = faults(alloc, questions, right, told)?;
    put_lines(alloc, questions, kept, server, found.as_slice(), onto)
}

/// Puts the lines of these servers behind the others.
fn put_servers(
    alloc: Global,
    questions: &[Question],
    kept: &Server,
    servers: &[Server],
    onto: &mut List<Text>,
) -> Result<(), NoMemory>
    ensures { OnOk result (length onto.new ≡ length onto.old
        + sum_by (fault_count questions.now kept.now) servers.now) }
{
    let [first, others @ ..] = servers else {
        return Ok(());
    };
    put_server(alloc, questions, kept, first, onto)?;
    put_servers(alloc, questions, kept, others, onto)
}

/// The lines of the servers, beside one that is kept.
pub fn report(
    alloc: Global,
    questions: &[Question],
    kept: &Server,
    servers: &[Server],
) -> Result<List<Text>, NoMemory>
    // One line for each fault.
    ensures count { IfOk result (λ lines. length lines
        ≡ sum_by (fault_count questions.now kept.now) servers.now) }
    // No line comes exactly where the servers are equal: to each question all give the answer of
    // the kept one, and it is what the schema wants.
    ensures equal { IfOk result (λ lines. (lines ≡ [])
        ↔ AreEqual questions.now kept.now servers.now) }
{
    let mut lines = List::new(alloc);
    put_servers(alloc, questions, kept, servers, &mut lines)?;
    Ok(lines)
}
