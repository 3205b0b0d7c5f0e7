//! A client that is connected.
ghost use Rattle.session_player.specs.Resting.{RestsAsKnown, known_prop};

use recovery_seat::Place;

/// A session that is connected.
#[derive(Drop)]
pub(crate) struct Client {
    pub(crate) place: Place,
    /// It has nothing to do until its client sends something, so that it is not asked.
    pub(crate) rests: bool,
    ghost known: { RestsAsKnown rests place } by { known_prop rests place },
}
