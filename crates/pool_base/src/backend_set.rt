//! Sets of backends.
ghost use Rattle.std.specs.Prelude.{◌≡◌, ◌<◌, ◌≤◌, ◌↔◌, ℕ, true, false, IsTrue, IsNone, IfSome};
ghost use Rattle.pool_base.specs.Sets.{has, with_one, without, Gains, Loses, IsEmptySet, IsLowest};

use crate::backend_id::BackendId;

/// Some of the backends: bit n of `bits` is set where backend n is in it.
#[derive(Clone, Copy, Debug, PartialEq, Eq)]
pub struct BackendSet {
    pub bits: u8,
}

impl BackendSet {
    /// No backend.
    pub const EMPTY: BackendSet = BackendSet { bits: 0 };

    pub fn has(&self, b: BackendId) -> bool
        ensures { result ≡ has self.now.bits b.number }
    {
        self.bits / b.weight() % 2 == 1
    }

    pub fn is_empty(&self) -> bool
        ensures { IsTrue result ↔ IsEmptySet self.now.bits }
    {
        self.lowest().is_none()
    }

    /// The member with the lowest number.
    pub fn lowest(&self) -> Option<BackendId>
        ensures none { IsNone result ↔ IsEmptySet self.now.bits }
        ensures lowest { IfSome result (λ b. IsLowest self.now.bits b.number) }
    {
        for number in 0..8 {
            let b = BackendId { number };
            if self.has(b) {
                return Some(b);
            }
        }
        None
    }

    /// The set with that backend in it.
    pub fn with(&self, b: BackendId) -> BackendSet
        ensures bits { result.bits ≡ with_one self.now.bits b.number }
        ensures members { Gains self.now.bits result.bits b.number }
    {
        if self.has(b) {
            *self
        } else {
            BackendSet {
                bits: self.bits + b.weight(),
            }
        }
    }

    /// The set without that backend.
    pub fn without(&self, b: BackendId) -> BackendSet
        ensures bits { result.bits ≡ without self.now.bits b.number }
        ensures members { Loses self.now.bits result.bits b.number }
    {
        if self.has(b) {
            BackendSet {
                bits: self.bits - b.weight(),
            }
        } else {
            *self
        }
    }
}
