//! What holds of the text forms of all values.
ghost use Rattle.std.specs.Prelude.{◌≡◌, ℕ, List};
ghost use Rattle.pg_values.specs.declared.col_type.ColType.{ColType};
ghost use Rattle.pg_values.specs.declared.value.Value.{Value};
ghost use Rattle.pg_values.specs.Answers.{ReadsText, RefusesText};

/// A text is read as one value of a type at most.
pub fn a_text_has_one_value()
    ensures { (kind : ColType) (text : List ℕ) (a b : Value)
        → ReadsText kind text a → ReadsText kind text b → a ≡ b }
{}

/// A text is refused with one code at most where a type is asked.
pub fn a_text_has_one_code()
    ensures { (kind : ColType) (text a b : List ℕ)
        → RefusesText kind text a → RefusesText kind text b → a ≡ b }
{}

/// No text is both read as a value of a type and refused.
pub fn no_text_is_read_and_refused()
    ensures { (kind : ColType) (text : List ℕ) (value : Value) (code : List ℕ)
        → ReadsText kind text value → ¬ (RefusesText kind text code) }
{}
