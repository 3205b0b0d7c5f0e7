//! One request at one backend, and one down a chain.
ghost use Rattle.std.specs.Prelude.{◌≡◌, ◌<◌, ◌≤◌, ◌⊎◌, ℕ, None, Some, true, IfOk, OnOk, All, length, map, slice_get};
ghost use Rattle.backend_trait.specs.Store.{Store, MayPost, is_refusal};
ghost use Rattle.backend_trait.specs.declared.answer.Answer.{Answer};
ghost use Rattle.write_path.specs.Chains.{answer_of, has_refused, kind_of, HaveAllAnswered, IsStopped, Takes};
ghost use Rattle.session_core.specs.Standing.{IsAlone, IsAsked};
ghost use Rattle.session_core.specs.Chains.{AreThere, MayAllPost, WereAsked, AskedAt};
ghost use Rattle.session_core.specs.Steps.{request_of};

use backend_trait::{Answer, Backend, Checked, Polled, Posted, Request};
use checked_sql::checked_copied;
use pool_base::{BackendId, BackendSet, NoMemory, SessionId};
use write_path::{Chain, ChainKind};

/// A step of a statement, the same at each backend.
#[derive(Clone, Copy)]
pub(crate) enum Step<'a> {
    Begin,
    Run(&'a Checked),
    Commit,
    Rollback,
}

impl Step<'_> {
    /// The request of the step: each backend has a copy of the statement.
    fn request(self) -> Result<Request, NoMemory>
        ensures { IfOk result (λ request. request ≡ request_of self.entry) }
    {
        match self {
            Step::Begin => Ok(Request::TakeSnapshot),
            Step::Run(statement) => Ok(Request::Run(checked_copied(statement)?)),
            Step::Commit => Ok(Request::Commit),
            Step::Rollback => Ok(Request::Rollback),
        }
    }
}

/// Asks one backend, on which no other session works.
pub(crate) fn ask<B: Backend>(
    one: &mut B,
    s: SessionId,
    request: Request,
) -> Result<Answer, NoMemory>
    requires alone { IsAlone s.number (B.meaning one.old) }
    requires may { MayPost (B.meaning one.old) s.number request }
    requires honest { B.is_honest one.old ≡ true }
    requires prompt { B.is_prompt one.old ≡ true }
    requires steady { B.is_steady one.old ≡ true }
    ensures honest { B.is_honest one.new ≡ true }
    ensures prompt { B.is_prompt one.new ≡ true }
    ensures steady { B.is_steady one.new ≡ true }
    ensures asked { IfOk result
        (λ answer. IsAsked (B.meaning one.old) s.number request answer (B.meaning one.new)) }
{
    match one.post(s, request) {
        Posted::NoMemory(request) => {
            drop(request);
            Err(NoMemory)
        }
        Posted::Accepted => match one.poll(s) {
            Polled::Answered(answer) => Ok(answer),
            Polled::NotYet | Polled::Lost | Polled::NoMemory => unreachable!(),
        },
    }
}

/// Whether an answer is a refusal.
pub(crate) fn is_refusal(answer: &Answer) -> bool
    ensures { result ≡ is_refusal answer.now }
{
    match answer {
        Answer::Refused(_) => true,
        Answer::Began
        | Answer::Rows(_)
        | Answer::Count(_)
        | Answer::Locked
        | Answer::Done
        | Answer::Serial(_) => false,
    }
}

/// Asks the backend of that number.
fn ask_at<B: Backend>(
    shelf: &mut [B],
    b: BackendId,
    s: SessionId,
    request: Request,
) -> Result<Answer, NoMemory>
    requires below { b.number < length shelf.old }
    requires may { (st : Store) → slice_get (map B.meaning shelf.old) b.number ≡ Some st
        → IsAlone s.number st × MayPost st s.number request }
    requires honest { All (λ b. B.is_honest b ≡ true) shelf.old }
    requires prompt { All (λ b. B.is_prompt b ≡ true) shelf.old }
    requires steady { All (λ b. B.is_steady b ≡ true) shelf.old }
    ensures len { length shelf.new ≡ length shelf.old }
    ensures honest { All (λ b. B.is_honest b ≡ true) shelf.new }
    ensures prompt { All (λ b. B.is_prompt b ≡ true) shelf.new }
    ensures steady { All (λ b. B.is_steady b ≡ true) shelf.new }
    ensures asked { IfOk result
        (λ answer. AskedAt s.number request b.number answer (map B.meaning shelf.old) (map
        B.meaning shelf.new)) }
{
    let at = usize::from(b.number);
    ask(&mut shelf[at], s, request)
}

/// One step down the chain: asks the backends one after another, to the chain's end.
pub(crate) fn go_down<B: Backend>(
    chain: &mut Chain<Answer>,
    kind: ChainKind,
    shelf: &mut [B],
    attached: BackendSet,
    s: SessionId,
    step: Step<'_>,
) -> Result<(), NoMemory>
    requires attached { AreThere attached.bits (length shelf.old) }
    requires few { length shelf.old ≤ 8 }
    requires may { MayAllPost s.number (request_of step) (map B.meaning shelf.old) }
    requires honest { All (λ b. B.is_honest b ≡ true) shelf.old }
    requires prompt { All (λ b. B.is_prompt b ≡ true) shelf.old }
    requires steady { All (λ b. B.is_steady b ≡ true) shelf.old }
    ensures len { length shelf.new ≡ length shelf.old }
    ensures honest { All (λ b. B.is_honest b ≡ true) shelf.new }
    ensures prompt { All (λ b. B.is_prompt b ≡ true) shelf.new }
    ensures steady { All (λ b. B.is_steady b ≡ true) shelf.new }
    ensures kind { OnOk result (kind_of chain.new ≡ kind) }
    ensures asked { OnOk result (WereAsked s.number (request_of step.entry) (answer_of chain.new)
        (has_refused chain.new) (map B.meaning shelf.old) (map B.meaning shelf.new)) }
    ensures end { OnOk result (HaveAllAnswered chain.new attached.bits
        ⊎ IsStopped chain.new attached.bits) }
{
    chain.begin(kind);
    for _ in 0..shelf.len() {
        let Some(b) = chain.next(attached) else {
            return Ok(());
        };
        let request = step.request()?;
        let answer = ask_at(shelf, b, s, request)?;
        let refused = is_refusal(&answer);
        chain.take_answer(b, answer, refused);
    }
    Ok(())
}
