//! The spares of a shelf: its boxes behind those of the backends, which can come in their place.
//!
//! ```text
//!        set aside              in a backend's place
//! Free <-----------> Aside -----------------------> Spent
//!        given back
//! ```

/// Whether a box can come in the place of a backend.
#[derive(Clone, Copy)]
pub enum Spare {
    Free,
    /// It is set aside for a recovery.
    Aside,
    /// It has come in the place of one, or is none of the spares.
    Spent,
}

/// The spares of a shelf, by the numbers of its boxes, which are below 64.
#[derive(Clone, Copy)]
pub struct Spares {
    spares: [Spare; 64],
}

impl Spares {
    ghost use Rattle.std.specs.Prelude.{◌≡◌, ◌≢◌, ◌<◌, ◌↔◌, IsTrue, IfSome, None};
    ghost use Rattle.backend_trait.specs.Rows.{with_at};
    ghost use Rattle.backend_rolls.specs.Spares.{IsFirstFree, IsNoneFree, spare_at};
    ghost use Rattle.backend_rolls.specs.declared.spares.Spare.TheVariants.{Free, Aside, Spent};

    /// All are free.
    pub fn new() -> Spares {
        Spares {
            spares: [Spare::Free; 64],
        }
    }

    /// What is known of a box.
    fn at(&self, box_number: usize) -> Spare
        ensures is { result ≡ spare_at self.now box_number }
        ensures within { result ≢ Spent → box_number < 64 }
    {
        if box_number < 64 {
            self.spares[box_number]
        } else {
            Spare::Spent
        }
    }

    fn is_free(&self, box_number: usize) -> bool
        ensures is { IsTrue result ↔ (spare_at self.now box_number ≡ Free) }
        ensures within { IsTrue result → box_number < 64 }
    {
        matches!(self.at(box_number), Spare::Free)
    }

    /// Whether it is set aside.
    pub fn is_aside(&self, box_number: usize) -> bool
        ensures is { IsTrue result ↔ (spare_at self.now box_number ≡ Aside) }
        ensures within { IsTrue result → box_number < 64 }
    {
        matches!(self.at(box_number), Spare::Aside)
    }

    /// The lowest that is free, of those from one number up to below another.
    pub fn lowest(&self, from: usize, end: usize) -> Option<usize>
        ensures none { result ≡ None → IsNoneFree self.now from end }
        ensures first { IfSome result (λ found. IsFirstFree self.now from end found) }
        ensures within { IfSome result (λ found. found < 64) }
    {
        for box_number in from..end {
            if self.is_free(box_number) {
                return Some(box_number);
            }
        }
        None
    }

    /// That is known of a box from now on.
    pub fn put(&mut self, box_number: usize, spare: Spare)
        requires { box_number < 64 }
        ensures { spare_at self.new ≡ with_at (spare_at self.old) box_number spare }
    {
        self.spares[box_number] = spare;
    }
}
