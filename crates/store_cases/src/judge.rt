//! Whether what a store tells at a poll is what an honest and prompt one may tell.
ghost use Rattle.std.specs.Prelude.{◌≡◌, ◌↔◌, IfOk, IsTrue, codes};
ghost use Rattle.backend_trait.specs.Acts.{IsOutOfMemory, IsDeadlock, IsPromptAnswer, IsPromptly};
ghost use Rattle.plain_store.specs.Meaning.{store_of};
ghost use Rattle.store_cases.specs.Judging.{IsAnswer, IsWait, IsRight};

use backend_trait::{Answer, Polled};
use plain_store::{Database, is_held_up, is_in_cycle, may_act};
use pool_base::{Code, NoMemory, SessionId};

fn is_deadlock_code(code: Code) -> bool
    ensures { IsTrue result ↔ (code.bytes ≡ codes "40P01") }
{
    code.bytes == *b"40P01"
}

fn is_out_of_memory(code: Code) -> bool
    ensures { IsTrue result ↔ IsOutOfMemory code }
{
    code.bytes == *b"53200"
}

fn is_deadlock(answer: &Answer) -> bool
    ensures { IsTrue result ↔ IsDeadlock answer.now }
{
    match answer {
        Answer::Refused(code) => is_deadlock_code(*code),
        Answer::Began
        | Answer::Rows(_)
        | Answer::Count(_)
        | Answer::Locked
        | Answer::Done
        | Answer::Serial(_) => false,
    }
}

fn is_prompt_answer(answer: &Answer) -> bool
    ensures { IsTrue result ↔ IsPromptAnswer answer.now }
{
    match answer {
        Answer::Refused(code) => !is_out_of_memory(*code),
        Answer::Began
        | Answer::Rows(_)
        | Answer::Count(_)
        | Answer::Locked
        | Answer::Done
        | Answer::Serial(_) => true,
    }
}

/// Whether a prompt store gives the answer: not for want of memory, and a deadlock only of a cycle
/// of waits.
fn is_prompt(store: &Database, s: SessionId, answer: &Answer) -> Result<bool, NoMemory>
    ensures { IfOk result (λ is. IsTrue is
        ↔ IsPromptly (store_of store.now) s.number (Polled.Answered answer.now)) }
{
    let cyclic = is_in_cycle(store, s)?;
    Ok(is_prompt_answer(answer) && (!is_deadlock(answer) || cyclic))
}

/// Whether the answer is allowed, and a prompt store gives it.
fn is_answer(store: &Database, s: SessionId, answer: &Answer) -> Result<bool, NoMemory>
    ensures { IfOk result
        (λ is. IsTrue is ↔ IsAnswer (store_of store.now) s.number answer.now) }
{
    let may = may_act(store, s, answer)?;
    let prompt = is_prompt(store, s, answer)?;
    Ok(may && prompt)
}

/// Whether the session's request has to wait, and closes no cycle of waits.
fn is_wait(store: &Database, s: SessionId) -> Result<bool, NoMemory>
    ensures { IfOk result (λ is. IsTrue is ↔ IsWait (store_of store.now) s.number) }
{
    let held_up = is_held_up(store, s)?;
    let in_cycle = is_in_cycle(store, s)?;
    Ok(!store.is_lost && held_up && !in_cycle)
}

/// Whether a store that means this may tell that: an answer that its table of answers allows, as a
/// prompt one gives it; nothing yet where the request has to wait; and a loss where it is lost.
pub fn is_right(store: &Database, s: SessionId, polled: &Polled) -> Result<bool, NoMemory>
    ensures { IfOk result
        (λ is. IsTrue is ↔ IsRight (store_of store.now) s.number polled.now) }
{
    match polled {
        Polled::Answered(answer) => is_answer(store, s, answer),
        Polled::NotYet => is_wait(store, s),
        Polled::Lost => Ok(store.is_lost),
        Polled::NoMemory => Ok(false),
    }
}
