//! Chains.
ghost use Rattle.std.specs.Prelude.{◌≡◌, length};

use crate::judged::Judged;
use crate::kind::ChainKind;
use crate::slots::{self, BACKENDS, Taken};
use pool_base::{BackendId, BackendSet, NoMemory};
use std::alloc::Global;

/// A request that goes down the attached backends in rising order, with their answers so far.
#[derive(Drop)]
pub struct Chain<A> {
    kind: ChainKind,
    slots: Vec<Option<Taken<A>>>,
    ghost eight: { length slots.items ≡ 8 },
}

impl<A: Eq + Drop> Chain<A> {
    ghost use Rattle.std.specs.Prelude.{◌≡◌, ◌≢◌, ◌↔◌, ◌<◌, ◌⊎◌, ℕ, Bool, true, false, Some, None, IsTrue, IsNone, IfNone, IfSome, IfOk, option_copied};
    ghost use Rattle.pool_base.specs.Sets.{has};
    ghost use Rattle.write_path.specs.Slots.{has_answer};
    ghost use Rattle.write_path.specs.Kept.{IsHolder, differs_at};
    ghost use Rattle.write_path.specs.Chains.{kind_of, answer_of, answers_among, HaveAllAnswered, IsStopped, IsNext, Takes, holder_of, IsSplit, DoDiffer, HasOnlyDiffering};
    ghost use Rattle.write_path.specs.declared.kind.ChainKind.TheVariants as kinds;

    /// A chain of the kind `All`, without answers.
    pub fn new(alloc: Global) -> Result<Chain<A>, NoMemory>
        ensures kind { IfOk result (λ chain. kind_of chain ≡ kinds.All) }
        ensures none { IfOk result (λ chain. (b : ℕ) → answer_of chain b ≡ None) }
    {
        let mut slots: Vec<Option<Taken<A>>> = Vec::new(alloc);
        for _ in 0..BACKENDS {
            slots.push(None)?;
        }
        Ok(Chain {
            kind: ChainKind::All,
            slots,
        })
    }

    /// Begins anew with this kind: all answers are dropped.
    pub fn begin(&mut self, kind: ChainKind)
        ensures kind { kind_of self.new ≡ kind }
        ensures none { (b : ℕ) → answer_of self.new b ≡ None }
    {
        self.kind = kind;
        slots::clear(&mut self.slots);
    }

    /// The backend that is to be asked next. None: the chain is at its end.
    pub fn next(&self, attached: BackendSet) -> Option<BackendId>
        // The end: all have answered, or the lowest has refused where that stops the chain.
        ensures end { IsNone result ↔ (HaveAllAnswered self.now attached.bits
            ⊎ IsStopped self.now attached.bits) }
        // The lowest attached one that has not answered.
        ensures next { IfSome result (λ b. IsNext self.now attached.bits b.number) }
    {
        if self.kind == ChainKind::StopAtRefusal && slots::lowest_refused(&self.slots, attached) {
            return None;
        }
        slots::first_open(&self.slots, attached)
    }

    /// Takes a backend's answer.
    pub fn take_answer(&mut self, b: BackendId, answer: A, refused: bool)
        requires { answer_of self.old b.number ≡ None }
        ensures { Takes self.old b.number answer refused self.new }
    {
        self.slots[usize::from(b.number)] = Some(Taken { answer, refused });
    }

    /// What a backend has answered.
    pub fn answer_of(&self, b: BackendId) -> Option<&A>
        ensures { option_copied result ≡ answer_of self.now b.number }
    {
        match &self.slots[usize::from(b.number)] {
            Some(taken) => Some(&taken.answer),
            None => None,
        }
    }

    /// Compares the answers of the attached backends.
    pub fn judge(&self, attached: BackendSet) -> Judged
        requires end { HaveAllAnswered self.now attached.bits ⊎ IsStopped self.now attached.bits }
        requires some { (b : ℕ) × (b < 8) × (has attached.bits b ≡ true) }
        // The holder is the lowest of the largest group.
        ensures holder { IsHolder A.eq (answers_among self.now attached.bits) (holder_of
            result).number }
        // Split: two answers differ, and these from the holder's.
        ensures split { IsSplit result ↔ DoDiffer A.eq (answers_among self.now attached.bits) }
        ensures differing { HasOnlyDiffering A.eq (answers_among self.now attached.bits) result }
    {
        let holder = slots::holder(&self.slots, attached);
        let differing = slots::differing(&self.slots, attached, holder);
        if differing.bits == 0 {
            return Judged::Agreed { holder };
        }
        Judged::Split { holder, differing }
    }
}
