//! The line of an event of the replicated world.
ghost use Rattle.std.specs.Prelude.{◌≡◌, ◌++◌, ◌∷◌, [], IfOk, IsTrue};
ghost use Rattle.play_laws.specs.Lines.{line_at, line_of};

use catalogue::Catalogue;
use journal::print_event;
use one_copy_model::Event;
use pool_base::{NoMemory, SessionId, Text};
use session_machine::SessionEvent;
use std::alloc::Global;

fn printed_at(
    alloc: Global,
    tables: &Catalogue,
    s: SessionId,
    event: &SessionEvent,
) -> Result<Text, NoMemory>
    ensures { IfOk result (λ text. text ≡ line_at tables.now s event.now ++ 10 ∷ []) }
{
    let line = match event {
        SessionEvent::Ordered(order) => journal::Event::Order { s, order },
        SessionEvent::Called { call, answer } => journal::Event::Gate {
            s,
            call: *call,
            answer: *answer,
        },
        SessionEvent::Posted { b, request } => journal::Event::Post { s, b: *b, request },
        SessionEvent::Taken { b, answer } => journal::Event::Take { s, b: *b, answer },
        SessionEvent::Faulted { b, before, after } => journal::Event::Fault {
            s,
            b: *b,
            before: *before,
            after: *after,
        },
        SessionEvent::Detached { b, cause, .. } => journal::Event::Detach { s, b: *b, cause },
        SessionEvent::Swapped { b } => journal::Event::Swap { s, b: *b },
        SessionEvent::Replied { outcome, status } => journal::Event::Reply {
            s,
            status: *status,
            outcome,
        },
        SessionEvent::Ended => journal::Event::End { s },
    };
    print_event(alloc, tables, line)
}

fn printed(alloc: Global, tables: &Catalogue, event: &Event) -> Result<Text, NoMemory>
    ensures { IfOk result (λ text. text ≡ line_of tables.now event.now) }
{
    match event {
        Event::Of { s, event } => printed_at(alloc, tables, *s, event),
        Event::Act { s, b, answer } => {
            let (s, b) = (*s, *b);
            print_event(alloc, tables, journal::Event::Act { s, b, answer })
        }
        Event::Lost { b } => print_event(alloc, tables, journal::Event::Lost { b: *b }),
    }
}

/// Whether the line, with its end, is that of the event.
pub(crate) fn has_line(
    alloc: Global,
    tables: &Catalogue,
    event: &Event,
    line: &[u8],
) -> Result<bool, NoMemory>
    ensures { IfOk result (λ has. IsTrue has → line_of tables.now event.now ≡ line.now) }
{
    let text = printed(alloc, tables, event)?;
    Ok(text.as_bytes() == line)
}
