//! The trait of links.
ghost use Rattle.std.specs.Prelude.{◌≡◌, ◌≤◌, ◌⊎◌, ℕ, Bool, true, List, Option, None, IsSome};
ghost use Rattle.pool_base.specs.Outside.{Rose};
ghost use Rattle.backend_trait.specs.declared.request.Request.{Request};
ghost use Rattle.backend_trait.specs.Exchanges.{Exchange, IsSpent, Spends, cut_short};
ghost use Rattle.backend_trait.specs.LinkForms.{IsPosted, IsPolled};

use crate::answer::Polled;
use crate::request::{Posted, Request};

/// One session's part of a backend that lies elsewhere.
///
/// `pending` is the request that waits for its answer, `fault_count` the faults so far, and `lost`
/// whether it gives no answer any more. `plan` are the exchanges that it is still to give, where it
/// tells them: a test's link does, a socket cannot.
///
/// An exchange is one with the link. A link may answer the end of a transaction before its backend
/// is asked, where every backend must answer so: `Done` to a ROLLBACK, and to a COMMIT of what has
/// changed nothing. It tells the backend later (`settle`).
pub trait Link: Drop {
    ghost pending: { Self → Option Request };

    ghost fault_count: { Self → ℕ };

    ghost lost: { Self → Bool };

    ghost plan: { Self → Option (List Exchange) };

    /// Puts a request.
    fn post(&mut self, request: Request) -> Posted
        requires idle { pending self.old ≡ None }
        ensures posted { IsPosted result request (pending self.new) }
        ensures plan { plan self.new ≡ plan self.old }
        ensures later { fault_count self.old ≤ fault_count self.new }
        ensures stays { lost self.old ≡ true → lost self.new ≡ true };

    /// Looks for the answer.
    fn poll(&mut self) -> Polled
        requires pending { IsSome (pending self.old) }
        ensures polled { IsPolled result (pending self.old) (pending self.new)
            (fault_count self.old) (fault_count self.new) }
        ensures later { fault_count self.old ≤ fault_count self.new }

        // Where it tells its exchanges an answer is that of the next one, and it is lost only where
        // none is left for the request.
        ensures spends { (answer : _) → result ≡ Polled.Answered answer
            → Spends (plan self.old) (pending self.old) answer (plan self.new) }
        ensures plan { ((answer : _) → result ≡ Polled.Answered answer → ⊥)
            → plan self.new ≡ plan self.old }
        ensures spent { result ≡ Polled.Lost → IsSpent (plan self.old) (pending self.old) }

        // Once it is lost each poll says so.
        ensures lost { lost self.old ≡ true → result ≡ Polled.Lost }
        ensures ends { result ≡ Polled.Lost → lost self.new ≡ true }
        ensures stays { lost self.old ≡ true → lost self.new ≡ true };

    /// Tells the backend what was held back from it, where nothing is pending. False: some of it is
    /// not told yet.
    fn settle(&mut self) -> bool
        requires idle { pending self.old ≡ None }
        ensures kept { pending self.new ≡ pending self.old }
        ensures plan { plan self.new ≡ plan self.old }
        ensures lost { lost self.new ≡ true → (lost self.old ≡ true)
            ⊎ Rose (fault_count self.old) (fault_count self.new) }
        ensures stays { lost self.old ≡ true → lost self.new ≡ true }
        ensures later { fault_count self.old ≤ fault_count self.new };

    /// Waits for it no longer: each poll from now on is `Lost`.
    fn give_up(&mut self)
        ensures rose { Rose (fault_count self.old) (fault_count self.new) }
        ensures kept { pending self.new ≡ pending self.old }
        ensures plan { plan self.new ≡ cut_short (plan self.old) }
        ensures lost { lost self.new ≡ true }
        ensures later { fault_count self.old ≤ fault_count self.new };

    /// How many faults of it there were so far.
    fn faults(&self) -> u64
        ensures { result ≡ fault_count self.now };
}
