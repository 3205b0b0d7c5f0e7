//! What the program keeps of the world.
ghost use Rattle.std.specs.Prelude.{◌≡◌, length};

use backend_trait::{Answer, Catalogue};
use plain_store::Database;
use session_engine::Core;
use session_machine::ReadPolicy;
use snapshot_gate::Gate;

/// A backend: its store, and by session's number the answer that it has given and the session has
/// not taken.
#[derive(Drop)]
pub struct Replica {
    pub store: Database,
    pub mail: Vec<Option<Answer>>,
    ghost mailed: { length mail.items ≡ 65 },
}

/// The world: the tables, the gate, the core of each session by its number, and each backend by its
/// number.
#[derive(Drop)]
pub struct Replicas {
    pub catalogue: Catalogue,
    pub policy: ReadPolicy,
    pub gate: Gate,
    pub cores: Vec<Core>,
    pub backends: Vec<Replica>,
    ghost sessions: { length cores.items ≡ 65 },
    ghost numbered: { length backends.items ≡ 8 },
}
