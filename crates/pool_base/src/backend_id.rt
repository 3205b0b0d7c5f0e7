//! The number of a backend.
ghost use Rattle.std.specs.Prelude.{◌≡◌, ◌<◌, ◌^◌, ◌↔◌, IsSome, IfSome};

/// The number of a backend, 0 to 7.
#[derive(Clone, Copy, Debug, PartialEq, Eq, PartialOrd, Ord)]
pub struct BackendId {
    pub number: u8,
    ghost below_8: { number < 8 },
}

impl BackendId {
    /// The backend of that number, if there is one.
    pub fn from_number(number: u8) -> Option<BackendId>
        ensures there { IsSome result ↔ (number < 8) }
        ensures number { IfSome result (λ b. b.number ≡ number) }
    {
        if number >= 8 {
            return None;
        }
        Some(BackendId { number })
    }

    /// The weight of its bit in a set.
    pub(crate) fn weight(self) -> u8
        ensures { result ≡ 2 ^ self.number }
    {
        1 << self.number
    }
}
