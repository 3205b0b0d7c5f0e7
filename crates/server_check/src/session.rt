//! Sessions of a check at the servers of a configuration, over TCP.

use crate::answer::Answer;
use crate::reading::answer_of;
use crate::run::{Asks, Seat};
use crate::server::Identity;
use pool_base::{BackendId, BackendSet, Code, List, NoMemory, Text};
use pool_config::Config;
use postgres_link::Word;
use std::alloc::Global;
use std::net::{Net, TcpStream};
use std::random::RandomSource;
use std::str;
use tcp_link::{Asker, Begun, Inquiry, TcpWire, begin_as, why_unshown};

/// A session at a server over TCP.
#[derive(Drop)]
pub struct Session {
    alloc: Global,
    inquiry: Inquiry<TcpWire>,
}

/// Which number a backend has, and what is told of it.
#[derive(Drop)]
pub struct Reason {
    pub number: BackendId,
    pub why: Text,
}

/// The servers that are asked, who they say that they are, and why the others are not asked.
#[derive(Drop)]
pub struct Seats {
    pub seats: Vec<Seat<Session>>,
    pub identities: List<Identity>,
    pub absent: BackendSet,
    pub reasons: List<Reason>,
}

/// What became of a session at a server.
#[derive(Drop)]
enum Taken {
    Seat(Seat<Session>),
    Not(Text),
}

impl Asks for Session {
    fn ask(&mut self, sql: &str) -> Result<bool, NoMemory> {
        self.inquiry.ask(sql.as_bytes())
    }

    fn answer(&mut self, word: Option<Word>) -> Result<Option<Answer>, NoMemory> {
        match self.inquiry.reply(word)? {
            Some(reply) => {
                let answer = answer_of(self.alloc, &reply);
                drop(reply);
                answer
            }
            None => Ok(None),
        }
    }
}

/// What is told of a server that turns the check away.
fn turned_away(alloc: Global, code: Code) -> Result<Text, NoMemory> {
    let code = str::from_utf8(&code.bytes).unwrap_or("");
    let text = format!(in alloc; "it turns the user away: {code}")?;
    Ok(Text::from_string(text))
}

/// There is no session, for that reason.
fn no_seat(alloc: Global, why: &str) -> Result<Taken, NoMemory> {
    Ok(Taken::Not(Text::from_str(alloc, why)?))
}

/// What became of the beginning of a session at the server of that number.
fn taken_by(alloc: Global, number: BackendId, begun: Begun) -> Result<Taken, NoMemory> {
    match begun {
        Begun::Ready(inquiry) => {
            let session = Session { alloc, inquiry };
            Ok(Taken::Seat(Seat::new(alloc, number, session)))
        }
        Begun::Refused(code) => Ok(Taken::Not(turned_away(alloc, code)?)),
        Begun::Unshown(unshown) => no_seat(alloc, why_unshown(unshown)),
        Begun::Forged => no_seat(alloc, "it has not shown that it knows the password"),
        Begun::Failed => no_seat(alloc, "it is not reached, or lets no session begin"),
    }
}

impl Seats {
    /// Nobody is asked.
    fn new(alloc: Global) -> Seats {
        Seats {
            seats: Vec::new(alloc),
            identities: List::new(alloc),
            absent: BackendSet::EMPTY,
            reasons: List::new(alloc),
        }
    }

    /// What became of a session.
    fn put(&mut self, number: BackendId, taken: Taken) -> Result<(), NoMemory> {
        match taken {
            Taken::Seat(seat) => {
                self.seats.push(seat)?;
                Ok(())
            }
            Taken::Not(why) => {
                self.absent = self.absent.with(number);
                self.reasons.push(Reason { number, why })
            }
        }
    }
}

/// Begins a session at the server of each of these backends, or tells why not.
pub(crate) fn take_seats<R: Net<Stream = TcpStream> + RandomSource>(
    rt: &R,
    alloc: Global,
    config: &Config,
    among: BackendSet,
    asker: &Asker,
) -> Result<Seats, NoMemory> {
    let mut found = Seats::new(alloc);
    for number in 0..8_u8 {
        let b = BackendId { number };
        if let Some(node) = config.nodes.get(usize::from(number)) {
            if among.has(b) {
                let begun = begin_as(rt, alloc, node, asker)?;
                found.put(b, taken_by(alloc, b, begun)?)?;
            }
        }
    }
    Ok(found)
}
