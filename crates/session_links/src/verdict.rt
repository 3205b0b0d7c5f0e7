//! Whether a client is let in, by what became of the links that were made for it.
ghost use Rattle.std.specs.Prelude.{◌≡◌};
ghost use Rattle.session_links.specs.Verdicts.{behind, code_of, code_wanting, opened_at, out_of_memory, too_many_connections, verdict_of};
ghost use Rattle.session_links.specs.declared.verdict.Verdict.TheVariants.{LetIn};

use pool_base::Code;

/// What the pool itself lacks.
#[derive(Clone, Copy, Debug, PartialEq, Eq)]
pub enum Want {
    /// It may open no more files.
    Descriptors,
    /// The system gives it no memory, no port of its own, or no random bytes.
    Memory,
}

/// What became of the link to one backend.
#[derive(Clone, Copy, Debug, PartialEq, Eq)]
pub enum Opened {
    /// None was to be made.
    Unasked,
    /// It is there.
    Ready,
    /// The server turns this client away with that code, and lets others in.
    TurnedAway(Code),
    /// No server is there, or it lets nobody in.
    Failed,
    /// The pool itself lacks what a link needs.
    Short(Want),
}

/// What becomes of the client. Backends are named by their numbers.
#[derive(Clone, Copy, Debug, PartialEq, Eq)]
pub enum Verdict {
    /// Its session begins. A backend without a link is found so by it.
    LetIn,
    /// It is refused with the code with which that backend turns it away.
    TurnedAway(u8, Code),
    /// It is refused, since the pool lacks what a link to that backend needs.
    Short(u8, Want),
}

/// The code where the pool has no connection for a client.
fn too_many_connections() -> Code
    ensures { result ≡ too_many_connections }
{
    Code { bytes: *b"53300" }
}

/// The code where the pool has no memory for a client.
fn out_of_memory() -> Code
    ensures { result ≡ out_of_memory }
{
    Code { bytes: *b"53200" }
}

/// The code with which a client is refused since the pool lacks that.
fn code_wanting(want: Want) -> Code
    ensures { result ≡ code_wanting want }
{
    match want {
        Want::Descriptors => too_many_connections(),
        Want::Memory => out_of_memory(),
    }
}

impl Verdict {
    /// The code with which the client is refused.
    pub fn code(self) -> Option<Code>
        ensures { result ≡ code_of self }
    {
        match self {
            Verdict::LetIn => None,
            Verdict::TurnedAway(_, code) => Some(code),
            Verdict::Short(_, want) => Some(code_wanting(want)),
        }
    }

    /// The same with one backend more: what the pool lacks goes before what a server says, and of
    /// those the lowest number counts.
    fn behind(self, number: u8, opened: Opened) -> Verdict
        ensures { result ≡ behind self number opened }
    {
        match self {
            Verdict::LetIn => first(number, opened),
            Verdict::TurnedAway(lower, code) => match opened {
                Opened::Short(want) => Verdict::Short(number, want),
                Opened::Unasked | Opened::Ready | Opened::TurnedAway(_) | Opened::Failed => {
                    Verdict::TurnedAway(lower, code)
                }
            },
            Verdict::Short(lower, want) => Verdict::Short(lower, want),
        }
    }
}

/// What becomes of a client whom nothing has kept out so far.
fn first(number: u8, opened: Opened) -> Verdict
    ensures { result ≡ behind LetIn number opened }
{
    match opened {
        Opened::Short(want) => Verdict::Short(number, want),
        Opened::TurnedAway(code) => Verdict::TurnedAway(number, code),
        Opened::Unasked | Opened::Ready | Opened::Failed => Verdict::LetIn,
    }
}

/// What became of the link to the backend at that place.
fn opened_at(opened: &[Opened], at: usize) -> Opened
    ensures { result ≡ opened_at opened.now at }
{
    match opened.get(at) {
        Some(opened) => *opened,
        None => Opened::Unasked,
    }
}

/// What becomes of a client, by what became of the links to the backends 0 to 7.
pub fn verdict_of(opened: &[Opened]) -> Verdict
    ensures { result ≡ verdict_of opened.now }
{
    Verdict::LetIn
        .behind(0, opened_at(opened, 0))
        .behind(1, opened_at(opened, 1))
        .behind(2, opened_at(opened, 2))
        .behind(3, opened_at(opened, 3))
        .behind(4, opened_at(opened, 4))
        .behind(5, opened_at(opened, 5))
        .behind(6, opened_at(opened, 6))
        .behind(7, opened_at(opened, 7))
}
