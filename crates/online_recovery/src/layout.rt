//! What does not change of a recovery.
ghost use Rattle.std.specs.Prelude.{◌≡◌};
ghost use Rattle.schema.specs.Allowed.{AreAllowed};

use schema::Catalogue;

/// What does not change: how many backends are configured, those with lower numbers; and the
/// tables of the schema.
#[derive(Drop)]
pub struct Layout {
    pub nodes: u8,
    pub tables: Catalogue,
    ghost allowed: { ∥ AreAllowed tables ∥₁ },
}

impl Layout {
    /// The layout of so many backends and these tables. It takes no memory.
    pub fn new(nodes: u8, tables: Catalogue) -> Layout
        requires { AreAllowed tables }
        ensures nodes { result.nodes ≡ nodes }
        ensures tables { result.tables ≡ tables }
    {
        Layout { nodes, tables }
    }
}
