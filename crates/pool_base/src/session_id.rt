//! The number of a session.
ghost use Rattle.std.specs.Prelude.{◌≡◌, ◌≤◌, ◌↔◌, IsSome, IfSome};

/// The number of a session, 1 to 64.
#[derive(Clone, Copy, Debug, PartialEq, Eq, PartialOrd, Ord)]
pub struct SessionId {
    pub number: u32,
    ghost from_one: { 1 ≤ number },
    ghost up_to_64: { number ≤ 64 },
}

impl SessionId {
    /// The session of that number, if there is one.
    pub fn from_number(number: u32) -> Option<SessionId>
        ensures there { IsSome result ↔ ((1 ≤ number) × (number ≤ 64)) }
        ensures number { IfSome result (λ s. s.number ≡ number) }
    {
        if number < 1 || number > 64 {
            return None;
        }
        Some(SessionId { number })
    }
}
