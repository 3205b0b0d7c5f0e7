//! What holds of all texts.
ghost use Rattle.std.specs.Prelude.{◌≡◌, ◌++◌, ℕ, List};
ghost use Rattle.sql_tokens.specs.declared.token.Token.{Token};
ghost use Rattle.schema.specs.declared.catalogue.TableDef.{TableDef};
ghost use Rattle.schema.specs.Grammar.{IsSchemaText};
ghost use Rattle.schema.specs.Reading.{Says, Begins, IsFaulty};

/// A text is faulty in one line, and in none where it is a schema.
pub fn a_text_is_faulty_in_one_line()
    ensures one { (text : List ℕ) (a b : ℕ) → IsFaulty text a → IsFaulty text b → a ≡ b }
    ensures none { (text : List ℕ) (line : ℕ) (tables : List TableDef)
        → IsFaulty text line → ¬ (Says text tables) }
{}

/// What begins a schema goes on to one, if the limits are left aside.
pub fn what_begins_a_schema_goes_on()
    ensures { (tokens : List Token) → Begins tokens
        → (more : List Token) × (tables : List TableDef) × IsSchemaText (tokens ++ more) tables }
{}
