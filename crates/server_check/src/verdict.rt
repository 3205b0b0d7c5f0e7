//! What is found of servers that were asked.
ghost use Rattle.std.specs.Prelude.{IfOk};
ghost use Rattle.server_check.specs.Faults.{IsVerdict};

use crate::answer::are_same;
use crate::groups::chosen;
use crate::lines::report;
use crate::question::Question;
use crate::server::Server;
use pool_base::{List, NoMemory, Text};
use std::alloc::Global;
use std::fmt::Write;

/// What is found of servers that were asked.
#[derive(Drop)]
pub enum Verdict {
    /// No server was asked.
    Nobody,
    /// All give the same answers, and those that the schema wants.
    Equal,
    /// These are the differences. The last line says which servers are of the kept group.
    Differ { lines: List<Text>, group: Text },
}

/// Puts the numbers of those of the servers that give the answers of one behind the text.
fn push_group(one: &Server, servers: &[Server], onto: &mut String) -> Result<(), NoMemory> {
    let [server, others @ ..] = servers else {
        return Ok(());
    };
    if are_same(server.answers.as_slice(), one.answers.as_slice()) {
        let b = server.number.number;
        write!(onto, " {b}")?;
    }
    push_group(one, others, onto)
}

/// The line of the group that is kept.
fn group_of(alloc: Global, one: &Server, servers: &[Server]) -> Result<Text, NoMemory> {
    let mut text = String::from_str(alloc, "the largest group of equal backends:")?;
    push_group(one, servers, &mut text)?;
    Ok(Text::from_string(text))
}

/// What is found of servers that were asked these questions.
pub fn judge(alloc: Global, questions: &[Question], servers: &[Server]) -> Result<Verdict, NoMemory>
    ensures { IfOk result (IsVerdict questions.now servers.now) }
{
    let Some(kept) = chosen(questions, servers) else {
        return Ok(Verdict::Nobody);
    };
    let lines = report(alloc, questions, kept, servers)?;
    if lines.is_empty() {
        return Ok(Verdict::Equal);
    }
    let group = group_of(alloc, kept, servers)?;
    Ok(Verdict::Differ { lines, group })
}
