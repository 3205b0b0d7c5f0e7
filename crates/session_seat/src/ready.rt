//! Whether an order can be run whatever the moment is.
ghost use Rattle.std.specs.Prelude.{◌≡◌, ◌↔◌, [], true, IsTrue};
ghost use Rattle.checked_sql.specs.OfCatalogue.{is_of};
ghost use Rattle.sql_eval.specs.Effects.{DrawsFew};
ghost use Rattle.session_seat.specs.Shared.{IsReady};

use backend_trait::draws_few;
use catalogue::{Catalogue, Checked};
use checked_sql::is_of;
use session_orders::OrderBody;

/// Whether a statement is of these tables, has no parameters left and draws few serial numbers.
fn is_whole(tables: &Catalogue, checked: &Checked) -> bool
    ensures { IsTrue result ↔ ((is_of tables.now checked.now ≡ true)
        × ((checked.now.kinds ≡ []) × DrawsFew checked.now.body)) }
{
    checked.kinds.is_empty() && draws_few(&checked.body) && is_of(tables, checked)
}

/// Whether what is ordered can be run before these tables, whatever the moment is.
pub(crate) fn is_ready(tables: &Catalogue, body: &OrderBody) -> bool
    ensures { IsTrue result ↔ IsReady tables.now body.now }
{
    match body {
        OrderBody::Statement(checked) => is_whole(tables, checked.get()),
        OrderBody::Begin
        | OrderBody::Commit
        | OrderBody::Rollback
        | OrderBody::Settle
        | OrderBody::ShowNodes
        | OrderBody::Recover(_)
        | OrderBody::Refuse { .. }
        | OrderBody::Leave => true,
    }
}
