//! One post and one poll at a backend, by its roll.
ghost use Rattle.std.specs.Prelude.{◌≡◌, true, IfOk, IfErr, None, OnErr, OnOk, is_some};
ghost use Rattle.backend_trait.specs.Acts.{Acts, InForm, IsPromptly};
ghost use Rattle.backend_trait.specs.Store.{posted};
ghost use Rattle.backend_rolls.specs.Known.{Counts, Knows, MayPostBy};
ghost use Rattle.backend_rolls.specs.Rolls.{known_in};
ghost use Rattle.session_seat.specs.declared.fault.StepFault.TheVariants.{Stopped};
ghost use Rattle.backend_rolls.specs.declared.known.Awaits.TheVariants as awaiting;

use crate::fault::StepFault;
use backend_rolls::Roll;
use backend_trait::{Backend, Catalogue, Polled, Posted, Request};
use pool_base::SessionId;

/// What a poll finds, with the backend's counts of faults before and behind it.
#[derive(Drop)]
pub struct Looked {
    pub before: u64,
    pub after: u64,
    pub polled: Polled,
}

/// Posts a request of a session, where the roll says that it may.
pub(crate) fn post_at<B: Backend>(
    tables: &Catalogue,
    roll: &mut Roll,
    store: &mut B,
    s: SessionId,
    request: Request,
) -> Result<(), StepFault>
    requires tables { (B.meaning store.old).tables ≡ tables.now }
    requires known { Knows (known_in roll.old) (B.meaning store.old) }
    requires counts { Counts tables.now (B.meaning store.old) }
    ensures tables { (B.meaning store.new).tables ≡ (B.meaning store.old).tables }
    ensures known { Knows (known_in roll.new) (B.meaning store.new) }
    ensures next { (B.meaning store.new).next ≡ (B.meaning store.old).next }
    ensures honest { B.is_honest store.new ≡ B.is_honest store.old }
    ensures prompt { B.is_prompt store.new ≡ B.is_prompt store.old }
    ensures steady { B.is_steady store.new ≡ B.is_steady store.old }
    ensures lost { (B.meaning store.new).lost ≡ (B.meaning store.old).lost }
    ensures idle { OnOk result ((B.meaning store.old).pending s.number ≡ None) }
    ensures posted { OnOk result (B.meaning store.new ≡
        posted (B.meaning store.old) s.number request) }
    ensures stopped { IfErr result (λ e. e ≡ Stopped
        → MayPostBy tables.now (known_in roll.old s.number) request → ⊥) }
{
    let known = roll.at(s);
    if !known.may_post(tables, &request) {
        drop(request);
        return Err(StepFault::Stopped);
    }
    let after = known.after_post(&request);
    match store.post(s, request) {
        Posted::NoMemory(request) => {
            drop(request);
            Err(StepFault::NoMemory)
        }
        Posted::Accepted => {
            roll.put(s, after);
            Ok(())
        }
    }
}

/// Looks for the answer to a session's request, where the roll says that it waits for one.
pub(crate) fn poll_at<B: Backend>(
    roll: &mut Roll,
    store: &mut B,
    s: SessionId,
) -> Result<Looked, StepFault>
    requires known { Knows (known_in roll.old) (B.meaning store.old) }
    ensures tables { (B.meaning store.new).tables ≡ (B.meaning store.old).tables }
    ensures known { Knows (known_in roll.new) (B.meaning store.new) }
    ensures honest { B.is_honest store.new ≡ B.is_honest store.old }
    ensures prompt { B.is_prompt store.new ≡ B.is_prompt store.old }
    ensures steady { B.is_steady store.new ≡ B.is_steady store.old }
    ensures pending { IfOk result (λ looked.
        is_some ((B.meaning store.old).pending s.number) ≡ true) }
    ensures form { IfOk result (λ looked. InForm (B.meaning store.old) s.number looked.polled
        looked.before looked.after (B.meaning store.new)) }
    ensures acts { IfOk result (λ looked. B.is_honest store.old ≡ true
        → Acts (B.meaning store.old) s.number looked.polled (B.meaning store.new)) }
    ensures promptly { IfOk result (λ looked. B.is_prompt store.old ≡ true
        → IsPromptly (B.meaning store.old) s.number looked.polled) }
    ensures lost { B.is_steady store.old ≡ true
        → (B.meaning store.new).lost ≡ (B.meaning store.old).lost }
    ensures stopped { OnErr result ((known_in roll.old s.number).awaits ≡ awaiting.Nothing) }
    ensures stays { OnErr result (B.meaning store.new ≡ B.meaning store.old) }
{
    let known = roll.at(s);
    if known.is_idle() {
        return Err(StepFault::Stopped);
    }
    let before = store.faults();
    let polled = store.poll(s);
    roll.put(s, known.after_poll(&polled));
    let after = store.faults();
    Ok(Looked {
        before,
        after,
        polled,
    })
}
