//! Texts, and the statements that they are.
use case_lines::Told;
use pool_base::List;
use sql_profile::{SqlFault, Statement, print_statement, read_statements, statements_again};
use std::alloc::Global;

/// The most bytes that a text of a case has.
pub(crate) const MOST_BYTES: usize = 1_000_000;

/// The name, `!` for a place alone, and the place behind `@`; `too long` for a limit.
fn put_fault(fault: &SqlFault, told: &mut Told) {
    match fault {
        SqlFault::Syntax(place) => put_place("!", *place, told),
        SqlFault::Outside { name, place } => put_place(name.as_str(), *place, told),
        SqlFault::TooLong => told.put("too long"),
        SqlFault::NoMemory => told.put("no memory"),
    }
}

fn put_place(name: &str, place: u32, told: &mut Told) {
    told.put(name);
    told.put("@");
    told.put_number(u64::from(place));
}

fn put_printed(alloc: Global, statement: &Statement, told: &mut Told) {
    match print_statement(alloc, statement) {
        Ok(text) => told.put_one_line(text.as_str()),
        Err(_) => told.put("no memory"),
    }
}

/// The statements, each printed and with `;` behind it; of many their number.
fn put_all(alloc: Global, statements: &[Statement], told: &mut Told) {
    if statements.is_empty() {
        return told.put("nothing");
    }
    if statements.len() > 9 {
        told.put_shown(&statements.len());
        return told.put(" statements");
    }
    for statement in statements {
        told.put_gap();
        put_printed(alloc, statement, told);
        told.put(";");
    }
}

fn put_answer(alloc: Global, answer: &Result<List<Statement>, SqlFault>, told: &mut Told) {
    match answer {
        Ok(statements) => put_all(alloc, statements.as_slice(), told),
        Err(fault) => put_fault(fault, told),
    }
}

/// What a text is read as.
pub(crate) fn put_statements(alloc: Global, text: &str, told: &mut Told) {
    if text.len() > MOST_BYTES {
        return told.put("longer than a case may be");
    }
    put_answer(alloc, &read_statements(alloc, text), told);
}

/// The statement that a text is, if it is one; the list has what was read.
pub(crate) fn one_of<'a>(
    alloc: Global,
    text: &str,
    read: &'a mut List<Statement>,
) -> Option<&'a Statement> {
    if text.len() > MOST_BYTES {
        return None;
    }
    if let Ok(statements) = read_statements(alloc, text) {
        drop(std::mem::replace(read, statements));
    }
    match read.as_slice() {
        [statement] => Some(statement),
        _ => None,
    }
}

/// What the text that is printed of the one statement of a text is read as.
pub(crate) fn put_again(alloc: Global, text: &str, told: &mut Told) {
    let mut read = List::new(alloc);
    match one_of(alloc, text, &mut read) {
        Some(statement) => put_answer(alloc, &statements_again(alloc, statement), told),
        None => told.put("not one statement"),
    }
}
