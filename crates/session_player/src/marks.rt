//! At which steps `until` stops.
ghost use Rattle.std.specs.Prelude.{◌≡◌, ◌↔◌, IsTrue};
ghost use Rattle.pgproto.specs.Line.{place_of};
ghost use Rattle.session_player.specs.Marks.{StopsAt};

use pgproto::Mark;

/// Whether a step has that mark.
fn is_mark(wanted: Mark, found: Mark) -> bool
    ensures { IsTrue result ↔ (place_of wanted ≡ place_of found) }
{
    match wanted {
        Mark::Order => matches!(found, Mark::Order),
        Mark::Snapshot => matches!(found, Mark::Snapshot),
        Mark::Commit => matches!(found, Mark::Commit),
        Mark::Post(b) => match found {
            Mark::Post(other) => b.number == other.number,
            Mark::Order | Mark::Snapshot | Mark::Commit | Mark::Answer(_) | Mark::Reply => false,
        },
        Mark::Answer(b) => match found {
            Mark::Answer(other) => b.number == other.number,
            Mark::Order | Mark::Snapshot | Mark::Commit | Mark::Post(_) | Mark::Reply => false,
        },
        Mark::Reply => matches!(found, Mark::Reply),
    }
}

/// Whether a session stops behind a step of that mark.
pub(crate) fn stops(until: Option<Mark>, did: Option<Mark>) -> bool
    ensures { IsTrue result ↔ StopsAt until did }
{
    match (until, did) {
        (Some(wanted), Some(found)) => is_mark(wanted, found),
        (Some(_), None) | (None, _) => false,
    }
}
