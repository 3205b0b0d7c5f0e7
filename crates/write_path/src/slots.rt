//! The answers of a chain, by the number of the backend.
ghost use Rattle.std.specs.Prelude.{◌≡◌, ◌↔◌, ◌==◌, ◌||◌, ◌≤◌, ◌<◌, ℕ, Bool, true, false, Some, None, IsTrue, IsNone, IfNone, IfSome, length, option_copied};
ghost use Rattle.pool_base.specs.Sets.{has};
ghost use Rattle.write_path.specs.Slots.{slot_at, seen_by, has_answer, HasRefused, is_open};
ghost use Rattle.write_path.specs.Kept.{is_like, group_size, size_at, IsHolder, differs_at};

use pool_base::{BackendId, BackendSet};

/// How many backends there may be.
pub(crate) const BACKENDS: u8 = 8;

/// What a backend has answered.
#[derive(Drop)]
pub struct Taken<A> {
    pub answer: A,
    pub refused: bool,
}

/// Drops all answers.
pub(crate) fn clear<A: Drop>(slots: &mut [Option<Taken<A>>])
    ensures len { length slots.new ≡ length slots.old }
    ensures none { (b : ℕ) → slot_at slots.new b ≡ None }
{
    for slot in slots.iter_mut() {
        *slot = None;
    }
}

/// The answer of that backend, if it is attached and has answered.
fn seen<A>(slots: &[Option<Taken<A>>], attached: BackendSet, at: u8) -> Option<&A>
    requires eight { length slots.now ≡ 8 }
    requires below { at < 8 }
    ensures { option_copied result ≡ seen_by attached.bits slots.now at }
{
    if !attached.has(BackendId { number: at }) {
        return None;
    }
    match &slots[usize::from(at)] {
        Some(taken) => Some(&taken.answer),
        None => None,
    }
}

/// Whether that backend's answer is this one.
fn is_like<A: Eq>(slots: &[Option<Taken<A>>], attached: BackendSet, at: u8, answer: &A) -> bool
    requires eight { length slots.now ≡ 8 }
    requires below { at < 8 }
    ensures { result ≡ is_like A.eq (seen_by attached.bits slots.now) answer.now at }
{
    match seen(slots, attached, at) {
        Some(other) => *other == *answer,
        None => false,
    }
}

/// How many answers are this one.
fn group_size<A: Eq>(slots: &[Option<Taken<A>>], attached: BackendSet, answer: &A) -> u8
    requires eight { length slots.now ≡ 8 }
    ensures { result ≡ group_size A.eq (seen_by attached.bits slots.now) answer.now }
{
    let mut size = 0;
    for at in 0..BACKENDS {
        if is_like(slots, attached, at, answer) {
            size += 1;
        }
    }
    size
}

/// How many answers are that backend's.
fn size_at<A: Eq>(slots: &[Option<Taken<A>>], attached: BackendSet, at: u8) -> u8
    requires eight { length slots.now ≡ 8 }
    requires below { at < 8 }
    ensures { result ≡ size_at A.eq (seen_by attached.bits slots.now) at }
{
    match seen(slots, attached, at) {
        Some(answer) => group_size(slots, attached, answer),
        None => 0,
    }
}

/// The backend whose answer is kept.
pub(crate) fn holder<A: Eq>(slots: &[Option<Taken<A>>], attached: BackendSet) -> BackendId
    requires eight { length slots.now ≡ 8 }
    requires some { (k : ℕ) × (k < 8) × (has_answer (seen_by attached.bits slots.now) k ≡ true) }
    ensures { IsHolder A.eq (seen_by attached.bits slots.now) result.number }
{
    let mut best = 0;
    let mut best_size = 0;
    for at in 0..BACKENDS {
        let size = size_at(slots, attached, at);
        if best_size < size {
            best = at;
            best_size = size;
        }
    }
    BackendId { number: best }
}

/// Whether that backend has answered otherwise than the holder.
fn differs<A: Eq>(
    slots: &[Option<Taken<A>>],
    attached: BackendSet,
    holder: BackendId,
    at: u8,
) -> bool
    requires eight { length slots.now ≡ 8 }
    requires below { at < 8 }
    ensures { result ≡ differs_at A.eq (seen_by attached.bits slots.now) holder.number at }
{
    match seen(slots, attached, holder.number) {
        Some(kept) => match seen(slots, attached, at) {
            Some(own) => *own != *kept,
            None => false,
        },
        None => false,
    }
}

/// The backends that have answered otherwise than the holder.
pub(crate) fn differing<A: Eq>(
    slots: &[Option<Taken<A>>],
    attached: BackendSet,
    holder: BackendId,
) -> BackendSet
    requires eight { length slots.now ≡ 8 }
    ensures { (k : ℕ) → k < 8
        → has result.bits k ≡ differs_at A.eq (seen_by attached.bits slots.now) holder.number k }
{
    let mut set = BackendSet::EMPTY;
    for at in 0..BACKENDS {
        if differs(slots, attached, holder, at) {
            set = joined(set, BackendId { number: at });
        }
    }
    set
}

/// The set with that backend in it.
fn joined(set: BackendSet, b: BackendId) -> BackendSet
    ensures { (k : ℕ) → k < 8 → has result.bits k ≡ (k == b.number || has set.bits k) }
{
    set.with(b)
}

/// The lowest attached backend that has not answered.
pub(crate) fn first_open<A>(slots: &[Option<Taken<A>>], attached: BackendSet) -> Option<BackendId>
    requires eight { length slots.now ≡ 8 }
    ensures none { IfNone result ((k : ℕ) → k < 8 → is_open attached.bits slots.now k ≡ false) }
    ensures lowest { IfSome result (λ b. (is_open attached.bits slots.now b.number ≡ true)
        × ((k : ℕ) → k < b.number → is_open attached.bits slots.now k ≡ false)) }
{
    for at in 0..BACKENDS {
        let b = BackendId { number: at };
        if attached.has(b) && slots[usize::from(at)].is_none() {
            return Some(b);
        }
    }
    None
}

/// Whether the lowest attached backend has answered with a refusal.
pub(crate) fn lowest_refused<A>(slots: &[Option<Taken<A>>], attached: BackendSet) -> bool
    requires eight { length slots.now ≡ 8 }
    ensures { IsTrue result ↔ HasRefused attached.bits slots.now }
{
    for at in 0..BACKENDS {
        if attached.has(BackendId { number: at }) {
            return match &slots[usize::from(at)] {
                Some(taken) => taken.refused,
                None => false,
            };
        }
    }
    false
}
