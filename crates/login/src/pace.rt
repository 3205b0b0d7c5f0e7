//! How fast passwords may be tried.
ghost use Rattle.std.specs.Prelude.{◌≡◌, ◌+◌, ℕ, true, false};

/// Who says when the answer to a password may be told.
pub trait Pace {
    /// How many answers it has let be told.
    ghost passes: { Self → ℕ };

    /// Waits until an answer may be told, right or wrong. False: it may not be told in the time
    /// that its client has.
    fn wait(&mut self) -> bool
        ensures through { result ≡ true → passes self.new ≡ passes self.old + 1 }
        ensures held { result ≡ false → passes self.new ≡ passes self.old };
}
