//! What an order is for, whose outcome is awaited.
ghost use Rattle.std.specs.Prelude.{◌≡◌};
ghost use Rattle.session_wire.specs.Asking.{due_of};

use pool_base::{Code, List};
use session_orders::OrderBody;
use wire_reply::Saying;

/// What an order is for.
#[derive(Drop)]
pub(crate) enum Due {
    /// A statement of a Query: the description of its rows, and whether it is the text's last.
    Statement {
        description: List<u8>,
        last: bool,
    },
    /// A backend is brought back, by a Query's last statement or one before.
    Recovery {
        last: bool,
    },
    /// A Query is refused, at its last statement or before.
    Refused {
        code: Code,
        saying: Saying,
        last: bool,
    },
    /// The end of a Query or of a pipeline.
    Settle,
    /// An Execute of a portal.
    Execute {
        portal: List<u8>,
        limit: i32,
    },
    /// An extended message is refused.
    Declined {
        code: Code,
        saying: Saying,
    },
}

/// What the order of a statement of a Query is for.
pub(crate) fn due_of(body: &OrderBody, description: List<u8>, last: bool) -> Due
    ensures { result ≡ due_of body.now description last }
{
    match body {
        OrderBody::Recover(_) => {
            drop(description);
            Due::Recovery { last }
        }
        _ => Due::Statement { description, last },
    }
}
