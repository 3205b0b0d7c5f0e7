//! What a loss leaves.
ghost use Rattle.std.specs.Prelude.{◌≡◌, true};
ghost use Rattle.session_links.specs.Rising.{has_risen};

/// The count of faults before and after a loss: it rose, or stands where it can rise no more.
#[derive(Clone, Copy, Debug, PartialEq, Eq)]
pub struct Loss {
    pub before: u64,
    pub after: u64,
    ghost rose: { has_risen before after ≡ true },
}
