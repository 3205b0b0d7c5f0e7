//! The layout of a recovery: how many backends are configured, and the tables.
ghost use Rattle.std.specs.Prelude.{◌≡◌, IfOk, true};
ghost use Rattle.schema.specs.Allowed.{AreAllowed};
ghost use Rattle.online_recovery.specs.declared.layout.Layout.{Layout as Plan};
ghost use Rattle.online_recovery.specs.Asking.{standing_in};
ghost use Rattle.online_recovery.specs.State.{new_standing};
ghost use Rattle.recovery_seat.specs.Places.{IsLayout};

use checked_sql::catalogue_copied;
use online_recovery::{Layout, Recovery};
use pool_base::SessionId;
use schema::TableDef;
use session_seat::{Setting, StepFault};

/// The layout of a configuration and its tables.
pub(crate) fn layout_in(setting: Setting) -> Result<Layout, StepFault>
    requires allowed { AreAllowed setting.tables.now }
    ensures { IfOk result (λ layout. IsLayout setting.entry.config.now setting.entry.tables.now
        layout) }
{
    let Ok(nodes) = u8::try_from(setting.config.nodes.len()) else {
        return Err(StepFault::Stopped);
    };
    let tables = catalogue_copied(setting.alloc, setting.tables)?;
    Ok(Layout::new(nodes, tables))
}

/// Whether these are the same tables.
#[tactic(auto, using(crate::proofs::LayoutLemmas::tables_only))]
fn are_same(tables: &[TableDef], others: &[TableDef]) -> bool
    ensures { result ≡ true → tables.now ≡ others.now }
{
    tables == others
}

/// Whether a layout is that of a configuration and its tables.
fn is_layout(layout: &Layout, setting: Setting) -> bool
    ensures { result ≡ true → IsLayout setting.entry.config.now setting.entry.tables.now
        layout.now }
{
    usize::from(layout.nodes) == setting.config.nodes.len()
        && are_same(layout.tables.tables(), setting.tables.tables())
}

/// Whether a recovery is of that session and of the layout of a configuration and its tables.
pub(crate) fn is_own(recovery: &Recovery, s: SessionId, setting: Setting) -> bool
    ensures { result ≡ true → (layout : Plan)
        → IsLayout setting.entry.config.now setting.entry.tables.now layout
        → new_standing (standing_in recovery.now).held.id (standing_in recovery.now).held.layout
        ≡ new_standing s layout }
{
    let held = &recovery.standing().held;
    held.id.number == s.number && is_layout(&held.layout, setting)
}
