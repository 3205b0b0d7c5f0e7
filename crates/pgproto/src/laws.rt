//! Laws of all lines. Each function does nothing; its clause is the law.
ghost use Rattle.std.specs.Prelude.{◌++◌, ◌∷◌, [], ℕ, List};
ghost use Rattle.std.specs.List.{AllByRecursion};
ghost use Rattle.pgproto.specs.Line.{Line};
ghost use Rattle.pgproto.specs.Script.{IsScript};
ghost use Rattle.pgproto.specs.Spelling.{IsOfGrammar, spelled};

/// What is printed of a line is a script of that line alone.
pub fn printed_again()
    ensures { (l : Line) → IsOfGrammar l → IsScript (spelled l ++ 10 ∷ []) (l ∷ []) }
{}

/// The lines of a script are of the grammar.
pub fn lines_of_grammar()
    ensures { (text : List ℕ) (found : List Line) → IsScript text found
        → AllByRecursion IsOfGrammar found }
{}
