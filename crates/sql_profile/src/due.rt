//! What is due where a text fails.
ghost use Rattle.std.specs.Prelude.{◌≡◌, List as Sequence, Err};
ghost use Rattle.sql_tokens.specs.declared.token.Token.{Token};
ghost use Rattle.sql_reader.specs.declared.text_fault.TextFault.TheVariants.{Syntax};
ghost use Rattle.sql_reader.specs.TextReading.{text_at};
ghost use Rattle.sql_profile.specs.Texts.{IsDue};

/// What the reader awaits at the token that it refuses is due there by the productions of the
/// grammar, and nothing else is.
pub fn awaited_is_due()
    ensures due { (tokens : Sequence Token) (left : _) (awaited : _)
        → text_at 64 tokens ≡ Err (Syntax left awaited) → IsDue 64 tokens left awaited }
    ensures alone { (tokens : Sequence Token) (left : _) (awaited : _) (other : _)
        → IsDue 64 tokens left awaited → IsDue 64 tokens left other → awaited ≡ other }
{}
