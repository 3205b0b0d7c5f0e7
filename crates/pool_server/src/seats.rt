//! The seats of the sessions.
ghost use Rattle.std.specs.Prelude.{◌≡◌, ◌<◌, ◌≤◌, ◌↔◌, suc, true, false, IsTrue, IfSome, IsNone};

use pool_base::SessionId;

/// The seats of the sessions: as many as the configuration says, at most 64. They are given in
/// turn, since the seat says where the reads of a session begin: so short sessions read at all
/// backends.
#[derive(Clone, Copy)]
pub struct Seats {
    pub count: u32,
    /// Which are taken, by their numbers. Place 0 is no seat.
    pub taken: [bool; 65],
    /// The seat that was given last; 0 before the first.
    pub last: u32,
    ghost up_to_64: { count ≤ 64 },
    ghost of_these: { last ≤ count },
}

impl Seats {
    ghost use Rattle.pool_server.specs.Seats.{is_taken, IsFree, AreTaken, AreTakenBetween, AreFree, Differs, IsNextFree};

    /// So many seats, all of them free.
    #[tactic(auto, using(crate::proofs::SeatLaws::none_taken))]
    pub fn new(count: u32) -> Seats
        requires { count ≤ 64 }
        ensures count { result.count ≡ count }
        ensures free { AreFree count result.taken }
        ensures last { result.last ≡ 0 }
    {
        Seats {
            count,
            taken: [false; 65],
            last: 0,
        }
    }

    /// The first free seat of those behind a seat and before an end, if there is one.
    fn first(&self, behind: u32, end: u32) -> Option<SessionId>
        requires behind { behind ≤ self.now.count }
        requires end { end ≤ suc self.now.count }
        ensures free { IfSome result (λ s. IsFree self.now.count self.now.taken s.number) }
        ensures behind { IfSome result (λ s. behind < s.number × s.number < end) }
        ensures first { IfSome result (λ s. AreTakenBetween behind s.number self.now.taken) }
        ensures none { IsNone result → AreTakenBetween behind end self.now.taken }
    {
        for number in behind + 1..end {
            if !self.taken[number as usize] {
                return Some(SessionId { number });
            }
        }
        None
    }

    /// The free seat that comes next behind the one that was given last, if there is one.
    fn next(&self) -> Option<SessionId>
        ensures free { IfSome result (λ s. IsFree self.now.count self.now.taken s.number) }
        ensures next { IfSome result (λ s. IsNextFree self.now.count self.now.last self.now.taken
            s.number) }
        ensures none { IsNone result → AreTaken self.now.count self.now.taken }
    {
        match self.first(self.last, self.count + 1) {
            Some(s) => Some(s),
            None => self.first(0, self.last + 1),
        }
    }

    /// Takes the free seat that comes next behind the one that was given last. None: all are taken.
    #[tactic(auto, using(crate::proofs::SeatLaws::one_written))]
    pub fn take(&mut self) -> Option<SessionId>
        ensures free { IfSome result (λ s. IsFree self.old.count self.old.taken s.number) }
        ensures next { IfSome result (λ s. IsNextFree self.old.count self.old.last self.old.taken
            s.number) }
        ensures last { IfSome result (λ s. self.new.last ≡ s.number) }
        ensures taken { IfSome result (λ s. Differs self.old.taken self.new.taken s.number true) }
        ensures none { IsNone result ↔ AreTaken self.old.count self.old.taken }
        ensures same { IsNone result → self.new ≡ self.old }
        ensures count { self.new.count ≡ self.old.count }
    {
        let s = self.next()?;
        self.taken[s.number as usize] = true;
        self.last = s.number;
        Some(s)
    }

    /// Frees a seat. One that is free stays so, and one above the count changes nothing.
    #[tactic(auto, using(crate::proofs::SeatLaws::one_written))]
    pub fn give(&mut self, s: SessionId)
        ensures freed { s.number ≤ self.old.count
            → Differs self.old.taken self.new.taken s.number false }
        ensures above { self.old.count < s.number → self.new.taken ≡ self.old.taken }
        ensures last { self.new.last ≡ self.old.last }
        ensures count { self.new.count ≡ self.old.count }
    {
        if s.number <= self.count {
            self.taken[s.number as usize] = false;
        }
    }

    /// Whether nobody has a seat.
    pub fn are_free(&self) -> bool
        ensures { IsTrue result ↔ AreFree self.now.count self.now.taken }
    {
        for number in 1..self.count + 1 {
            if self.taken[number as usize] {
                return false;
            }
        }
        true
    }
}
