//! Things with names.
ghost use Rattle.std.specs.Prelude.{◌≡◌, List, ℕ};

/// A thing that has a name.
pub trait Named {
    ghost name_of: { Self → List ℕ };

    /// Its name.
    fn name(&self) -> &str
        ensures { result.now ≡ name_of self.now };
}
