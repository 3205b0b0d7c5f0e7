//! What lies outside the program: sources, sinks, files and clocks, each with its count of faults.
ghost use Rattle.std.specs.Prelude.{◌≡◌, ◌<◌, ◌≤◌, ◌||◌, ℕ, ℤ, Bool, [], ◌∷◌, List, Option, length};
ghost use Rattle.pool_base.specs.Outside.{Appends, Gave, GaveAt, FaultyRead, FaultyWrite, Took, Told, is_end};

/// What a read gave.
#[derive(Clone, Copy, Debug, PartialEq, Eq, Drop)]
pub enum Got {
    /// So many bytes, at least one, stand at the front of the piece.
    Bytes(usize),
    /// Nothing is left.
    End,
    /// It could not be read, and the count of faults rose.
    Failed,
}

/// What a write did.
#[derive(Clone, Copy, PartialEq, Eq, Drop)]
pub enum Put {
    /// So many bytes of the piece's front were taken, at least one.
    Taken(usize),
    /// Nothing was taken, and the count of faults rose.
    Failed,
}

/// What gives bytes, one piece after another.
pub trait Source {
    /// The bytes that are left, where the source tells them.
    ghost left: { Self → Option (List ℕ) };

    /// Whether a read has answered `End`.
    ghost ended: { Self → Bool };

    ghost fault_count: { Self → ℕ };

    /// Reads the next bytes into the piece.
    fn read(&mut self, into: &mut [u8]) -> Got
        requires { 0 < length into.old }
        ensures len { length into.new ≡ length into.old }
        ensures gives { Gave result into.new (left self.old) (left self.new) }
        ensures ended { ended self.new ≡ (ended self.old || is_end result) }
        ensures failed { FaultyRead result (fault_count self.old) (fault_count self.new) }
        ensures later { fault_count self.old ≤ fault_count self.new };

    /// How many faults there were. The count stands still at `u64::MAX`.
    fn faults(&self) -> u64
        ensures { result ≡ fault_count self.now };
}

/// What takes bytes, one piece after another.
pub trait Sink {
    /// The bytes that it has taken, where the sink tells them.
    ghost taken: { Self → Option (List ℕ) };

    ghost fault_count: { Self → ℕ };

    /// Takes a front of the piece.
    fn write(&mut self, piece: &[u8]) -> Put
        requires { 0 < length piece.now }
        ensures takes { Took result piece.now (taken self.old) (taken self.new) }
        ensures failed { FaultyWrite result (fault_count self.old) (fault_count self.new) }
        ensures later { fault_count self.old ≤ fault_count self.new };

    /// How many faults there were. The count stands still at `u64::MAX`.
    fn faults(&self) -> u64
        ensures { result ≡ fault_count self.now };
}

/// Files by their names.
pub trait Files {
    /// What is told of the file of a name.
    ghost contents: { Self → List ℕ → Told };

    ghost fault_count: { Self → ℕ };

    /// Reads the bytes that stand at a place of a file into the piece. A file that is not there is
    /// a fault.
    ///
    /// Units: `place` counts bytes from 0.
    fn read(&mut self, name: &str, place: u64, into: &mut [u8]) -> Got
        requires { 0 < length into.old }
        ensures len { length into.new ≡ length into.old }
        ensures gives { GaveAt result place into.new (contents self.old name.now) }
        ensures kept { contents self.new ≡ contents self.old }
        ensures failed { FaultyRead result (fault_count self.old) (fault_count self.new) }
        ensures later { fault_count self.old ≤ fault_count self.new };

    /// How many faults there were. The count stands still at `u64::MAX`.
    fn faults(&self) -> u64
        ensures { result ≡ fault_count self.now };
}

/// What tells the moment.
pub trait Clock {
    /// The moments given so far, where the clock tells them.
    ghost given: { Self → Option (List ℤ) };

    /// The moment now.
    ///
    /// Units: microseconds since 2000-01-01 00:00 UTC.
    fn now(&mut self) -> i64
        ensures { Appends (given self.old) (given self.new) (result ∷ []) };
}
