//! Servers are asked all questions, each one at all of them at once.
ghost use Rattle.std.specs.Prelude.{◌≡◌, IfOk, IfSome};

use crate::answer::Answer;
use crate::question::Question;
use crate::server::{Identity, Server};
use crate::sql::{holder_sql, key_sql};
use pool_base::{BackendId, BackendSet, List, NoMemory};
use postgres_link::Word;
use std::alloc::Global;

/// A session at a server that is asked one question after the other.
pub trait Asks: Drop {
    /// Sends a question. False: the session is lost.
    fn ask(&mut self, sql: &str) -> Result<bool, NoMemory>;

    /// Waits for the answer to it: the tag of that word, or else one text. `Ok(None)`: the session
    /// is lost.
    fn answer(&mut self, word: Option<Word>) -> Result<Option<Answer>, NoMemory>;
}

/// A server that is being asked.
#[derive(Drop)]
pub struct Seat<S: Asks> {
    pub server: Server,
    session: S,
    is_lost: bool,
}

/// Servers that were asked, each with its session, and those whose sessions were lost.
#[derive(Drop)]
pub struct Asked<S: Asks> {
    pub servers: List<Server>,
    pub seats: Vec<Seat<S>>,
    pub lost: BackendSet,
}

impl<S: Asks> Seat<S> {
    /// A server that has answered nothing yet.
    pub fn new(alloc: Global, number: BackendId, session: S) -> Seat<S> {
        let answers = List::new(alloc);
        Seat {
            server: Server { number, answers },
            session,
            is_lost: false,
        }
    }

    /// What the server answers to a text that is no question of the list. `Ok(None)`: its session
    /// is lost.
    pub fn tell(&mut self, sql: &str, word: Option<Word>) -> Result<Option<Answer>, NoMemory> {
        if !self.session.ask(sql)? {
            return Ok(None);
        }
        self.session.answer(word)
    }

    /// Takes the key of this check at the server and its database, for its number.
    pub fn take_key(&mut self, alloc: Global, key: u32) -> Result<(), NoMemory> {
        let sql = key_sql(alloc, key, self.server.number)?;
        drop(self.tell(sql.as_str(), None)?);
        Ok(())
    }

    /// Which server it is: the lowest number that has the key at it and its database. `Ok(None)`:
    /// it does not say.
    pub fn identity(&mut self, alloc: Global, key: u32) -> Result<Option<Identity>, NoMemory>
        ensures { IfOk result (λ said. IfSome said (λ identity.
            identity.number ≡ self.old.server.number)) }
    {
        let number = self.server.number;
        let sql = holder_sql(alloc, key)?;
        match self.tell(sql.as_str(), None)? {
            Some(Answer::Told(place)) => Ok(Some(Identity { number, place })),
            Some(Answer::Nothing) => Ok(None),
            Some(Answer::Refused(_)) => Ok(None),
            None => Ok(None),
        }
    }

    /// Sends a question, unless the session is lost.
    fn send(&mut self, sql: &str) -> Result<(), NoMemory> {
        if !self.is_lost {
            self.is_lost = !self.session.ask(sql)?;
        }
        Ok(())
    }

    /// Waits for the answer, and keeps it, unless the session is lost.
    fn hear(&mut self, word: Option<Word>) -> Result<(), NoMemory> {
        if self.is_lost {
            return Ok(());
        }
        match self.session.answer(word)? {
            Some(answer) => self.server.answers.push(answer),
            None => {
                self.is_lost = true;
                Ok(())
            }
        }
    }
}

/// Sends a question to each server.
fn send<S: Asks>(seats: &mut [Seat<S>], sql: &str) -> Result<(), NoMemory> {
    for seat in seats.iter_mut() {
        seat.send(sql)?;
    }
    Ok(())
}

/// Waits for the answer of each server.
fn hear<S: Asks>(seats: &mut [Seat<S>], word: Option<Word>) -> Result<(), NoMemory> {
    for seat in seats.iter_mut() {
        seat.hear(word)?;
    }
    Ok(())
}

/// The servers with their answers, and a seat anew for each.
fn parted<S: Asks>(alloc: Global, seats: Vec<Seat<S>>) -> Result<Asked<S>, NoMemory> {
    let mut asked = Asked {
        servers: List::new(alloc),
        seats: Vec::new(alloc),
        lost: BackendSet::EMPTY,
    };
    for seat in seats {
        part(alloc, seat, &mut asked)?;
    }
    Ok(asked)
}

/// One server with its answers, and a seat anew for it.
fn part<S: Asks>(alloc: Global, seat: Seat<S>, asked: &mut Asked<S>) -> Result<(), NoMemory> {
    let Seat {
        server,
        session,
        is_lost,
    } = seat;
    let number = server.number;
    if is_lost {
        drop(server);
        drop(session);
        asked.lost = asked.lost.with(number);
        return Ok(());
    }
    asked.servers.push(server)?;
    asked.seats.push(Seat::new(alloc, number, session))?;
    Ok(())
}

/// The seats at these backends.
pub(crate) fn kept_seats<S: Asks>(
    alloc: Global,
    seats: Vec<Seat<S>>,
    among: BackendSet,
) -> Result<Vec<Seat<S>>, NoMemory> {
    let mut kept = Vec::new(alloc);
    for seat in seats {
        if among.has(seat.server.number) {
            kept.push(seat)?;
        } else {
            drop(seat);
        }
    }
    Ok(kept)
}

/// Asks all servers all questions.
pub fn ask_all<S: Asks>(
    alloc: Global,
    mut seats: Vec<Seat<S>>,
    questions: &[Question],
) -> Result<Asked<S>, NoMemory> {
    for question in questions {
        send(seats.as_mut_slice(), question.sql.as_str())?;
        hear(seats.as_mut_slice(), question.word)?;
    }
    parted(alloc, seats)
}
