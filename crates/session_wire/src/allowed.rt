//! Which outcomes may answer an order.
ghost use Rattle.std.specs.Prelude.{◌↔◌, IsTrue};
ghost use Rattle.session_wire.specs.Answers.{MayAnswer};

use session_orders::Outcome;
use wire_reply::are_in_range;

/// The name of an error has at most so many bytes.
const NAME_LIMIT: usize = 1000;

/// Whether an outcome may answer an order: each value of its rows is in its range, and the name of
/// an error has at most 1000 bytes. It goes over the values once.
pub fn may_answer(outcome: &Outcome) -> bool
    ensures { IsTrue result ↔ MayAnswer outcome.now }
{
    match outcome {
        Outcome::Rows { rows, .. } => are_in_range(rows.as_slice()),
        Outcome::Error { name, .. } => name.len() <= NAME_LIMIT,
        Outcome::Done { .. } | Outcome::Settled | Outcome::Nodes(_) => true,
    }
}
