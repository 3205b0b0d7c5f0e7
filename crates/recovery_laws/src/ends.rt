//! What a copy's transactions begin and end with, and the serial numbers.
ghost use Rattle.std.specs.Prelude.{◌≡◌, ℕ, ℤ, Some};
ghost use Rattle.backend_trait.specs.declared.request.Request.TheVariants.{Commit, Lock, ReadSerial, SetSerial, TakeSnapshot};
ghost use Rattle.backend_trait.specs.declared.answer.Answer.{Answer};
ghost use Rattle.backend_trait.specs.declared.answer.Answer.TheVariants as answers;
ghost use Rattle.backend_trait.specs.Rows.{Rows, with_at};
ghost use Rattle.backend_trait.specs.Store.{Absent, Alive, Live, Store, acted, begun, settled, view_of};
ghost use Rattle.recovery_laws.specs.Copied.{Grants, Leaves};

/// A transaction begins with the committed rows as its base, and sees them.
pub fn snapshots_see_the_rows()
    ensures sees { (rows : Rows) → view_of (begun rows) ≡ rows }
    ensures left { (st : Store) (s : ℕ)
        → acted st s TakeSnapshot answers.Began ≡ settled st s (Alive (begun st.rows)) }
{}

/// A commit over its own base leaves the rows that the transaction saw. The serial numbers stay,
/// and a session that has no transaction has none behind it.
pub fn commits_leave_what_is_seen()
    ensures answer { (st : Store) (s : ℕ) (t : Live) (answer : Answer)
        → Grants st s t Commit answer → answer ≡ answers.Done }
    ensures rows { (st : Store) (s : ℕ) (t : Live) → st.transaction s ≡ Alive t
        → t.base ≡ st.rows → (acted st s Commit answers.Done).rows ≡ view_of t }
    ensures next { (st : Store) (s : ℕ) → (acted st s Commit answers.Done).next ≡ st.next }
    ensures ended { (st : Store) (s : ℕ)
        → (acted st s Commit answers.Done).transaction s ≡ Absent }
    ensures others { (st : Store) (s o : ℕ) → st.transaction o ≡ Absent
        → (acted st s Commit answers.Done).transaction o ≡ Absent }
{}

/// A read of a number and a lock leave the numbers as they were, and behind a lock the transaction
/// sees what it saw. To set a number leaves that number, and all else as it was.
pub fn numbers_are_set()
    ensures read { (st : Store) (s table : ℕ) (answer : Answer)
        → (acted st s (ReadSerial table) answer).next ≡ st.next }
    ensures locked { (st : Store) (s table : ℕ) (t : Live) (answer : Answer)
        → Grants st s t (Lock table) answer
        → Leaves st s t (λ view. view ≡ view_of t) (acted st s (Lock table) answer) }
    ensures set { (st : Store) (s table : ℕ) (number : ℤ)
        → acted st s (SetSerial table number) answers.Done
        ≡ record (settled st s (st.transaction s)) {
          next = with_at st.next table (Some number);
        } }
{}
