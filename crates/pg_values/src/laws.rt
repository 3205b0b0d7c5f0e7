//! What holds of all values.
ghost use Rattle.std.specs.Prelude.{◌≡◌, ℕ, List, Option, Some};
ghost use Rattle.pg_values.specs.declared.col_type.ColType.{ColType};
ghost use Rattle.pg_values.specs.declared.value.Value.{Value};
ghost use Rattle.pg_values.specs.Range.{IsInRange};
ghost use Rattle.pg_values.specs.Text.{IsTextOf, IsOfType};
ghost use Rattle.pg_values.specs.Binary.{binary_form};
ghost use Rattle.pg_values.specs.Answers.{ReadsText, ReadsBinary};

/// What is printed of a value in its range is read as that value.
pub fn text_is_read_again()
    ensures { (kind : ColType) (value : Value) (text : List ℕ)
        → IsOfType kind value → IsInRange value
        → IsTextOf value (Some text) → ReadsText kind text value }
{}

/// The binary form of a value in its range is read as that value.
pub fn binary_is_read_again()
    ensures { (kind : ColType) (value : Value) (bytes : List ℕ)
        → IsOfType kind value → IsInRange value
        → binary_form value ≡ Some bytes → ReadsBinary kind bytes value }
{}

/// A value has one text form.
pub fn a_value_has_one_text()
    ensures { (value : Value) (a b : Option (List ℕ))
        → IsTextOf value a → IsTextOf value b → a ≡ b }
{}
