//! What holds of all moments.
ghost use Rattle.std.specs.Prelude.{ℤ};
ghost use Rattle.pg_values.specs.Range.{IsMoment};
ghost use Rattle.pg_values.specs.Moments.{IsPrintedMoment};
ghost use Rattle.checked_print.specs.Moments.{moment_text};

/// The text of a moment of the years 1 to 9999 is the one that is printed of it.
pub fn moments_are_printed()
    ensures { (micros : ℤ) → IsMoment micros → IsPrintedMoment micros (moment_text micros) }
{}
