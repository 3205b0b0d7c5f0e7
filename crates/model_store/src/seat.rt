//! Seats: what the store has of each session.
ghost use Rattle.std.specs.Prelude.{◌≡◌, true};
ghost use Rattle.model_store.specs.Phases.{fits, has_room_in, has_room_in-prop};

use crate::phase::{Phase, Waiting};

/// A session's place in the store.
#[derive(Drop)]
pub struct Seat {
    pub phase: Phase,
    pub waiting: Option<Waiting>,
    ghost fitting: { fits phase waiting ≡ true },
    ghost roomy: { has_room_in phase waiting } by { has_room_in-prop phase waiting },
}
