//! What holds of all wires.
ghost use Rattle.std.specs.Prelude.{◌++◌, ℕ, List};
ghost use Rattle.session_wire.specs.Shown.{View, with_piece};
ghost use Rattle.session_wire.specs.Cuts.{Message, HasTaken};

use pg_messages::fronts_stay;

/// However the bytes of a client are cut, they are the same messages: what was taken of some bytes
/// is taken of them and a further piece.
pub fn pieces_are_one()
    ensures fed { (v : View) (fed : List ℕ) (taken : List Message) (piece : List ℕ)
        → HasTaken fed taken v → HasTaken (fed ++ piece) taken (with_piece v piece) }
{
    fronts_stay();
}
