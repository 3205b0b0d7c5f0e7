//! The number of a user who shows a password.
ghost use Rattle.std.specs.Prelude.{◌<◌};

/// The number of a user who shows a password, 0 to 15.
#[derive(Clone, Copy, PartialEq, Eq)]
pub struct UserNumber {
    pub number: u8,
    ghost below_16: { number < 16 },
}
