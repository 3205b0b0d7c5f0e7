//! What a line of a script does.
ghost use Rattle.std.specs.Prelude.{◌≡◌};
ghost use Rattle.pgproto.specs.Line.{line_of};
ghost use Rattle.session_player.specs.Deeds.{IsDeedOf};

use pgproto::{Mark, ScriptLine};
use pool_base::{BackendId, SessionId};

/// What is asked of a session.
#[derive(Clone, Copy)]
pub(crate) enum Wish<'a> {
    /// It takes no step until it is let go.
    Hold,
    /// It takes steps again.
    Go,
    /// It alone takes steps up to the mark, and is held there.
    Until(Mark),
    /// Its client sends what the line says.
    Send(&'a ScriptLine),
}

/// What a line does.
#[derive(Clone, Copy)]
pub(crate) enum Deed<'a> {
    /// A client connects.
    Connect(SessionId),
    /// A backend is lost.
    Lose(BackendId),
    /// From here on the clients' bytes come in pieces of so many.
    Cut(u32),
    /// The clock shows the moment of this text from here on.
    SetMoment(&'a [u8]),
    /// Something is asked of a session.
    Of(SessionId, Wish<'a>),
}

/// What a line does.
pub(crate) fn deed_of(line: &ScriptLine) -> Deed<'_>
    ensures { IsDeedOf (line_of line.now) result }
{
    match line {
        ScriptLine::Session(s) => Deed::Connect(*s),
        ScriptLine::Lose(b) => Deed::Lose(*b),
        ScriptLine::Cut(size) => Deed::Cut(*size),
        ScriptLine::Moment(text) => Deed::SetMoment(text.as_bytes()),
        ScriptLine::Hold(s) => Deed::Of(*s, Wish::Hold),
        ScriptLine::Go(s) => Deed::Of(*s, Wish::Go),
        ScriptLine::Until(s, mark) => Deed::Of(*s, Wish::Until(*mark)),
        ScriptLine::Raw(s, _) => Deed::Of(*s, Wish::Send(line)),
        ScriptLine::Query(s, _) => Deed::Of(*s, Wish::Send(line)),
        ScriptLine::Parse { s, .. } => Deed::Of(*s, Wish::Send(line)),
        ScriptLine::Describe { s, .. } => Deed::Of(*s, Wish::Send(line)),
        ScriptLine::Bind { s, .. } => Deed::Of(*s, Wish::Send(line)),
        ScriptLine::Execute { s, .. } => Deed::Of(*s, Wish::Send(line)),
        ScriptLine::Close { s, .. } => Deed::Of(*s, Wish::Send(line)),
        ScriptLine::Flush(s) => Deed::Of(*s, Wish::Send(line)),
        ScriptLine::Sync(s) => Deed::Of(*s, Wish::Send(line)),
        ScriptLine::Terminate(s) => Deed::Of(*s, Wish::Send(line)),
    }
}
