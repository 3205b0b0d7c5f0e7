//! What holds of all bytes, however they are cut. The function does nothing; its clauses are the
//! laws.
ghost use Rattle.std.specs.Prelude.{ℕ, List, ◌++◌};
ghost use Rattle.postgres_link.specs.Hearing.{Hears, Outcome, waiting, replied, broken};

use crate::hearing::Hearer;
use pg_messages::fronts_stay;

/// What bytes come to, they come to in any cut: what was heard of the first ones and then of the
/// others is heard of all. A reply stays, and what follows it stays behind it. What has broken off
/// stays so.
pub fn cut_anywhere<H: Hearer>()
    ensures waits { (s new : H) (n m left now : ℕ) (a b rest : List ℕ) (o : Outcome H H.Reply)
        → Hears H.Goes H.Ends H.Exceeds s n left a (waiting new m now rest)
        → Hears H.Goes H.Ends H.Exceeds new m now (rest ++ b) o
        → Hears H.Goes H.Ends H.Exceeds s n left (a ++ b) o }
    ensures replies { (s : H) (n left : ℕ) (a b rest : List ℕ) (r : H.Reply)
        → Hears H.Goes H.Ends H.Exceeds s n left a (replied r rest)
        → Hears H.Goes H.Ends H.Exceeds s n left (a ++ b) (replied r (rest ++ b)) }
    ensures breaks { (s : H) (n left : ℕ) (a b : List ℕ)
        → Hears H.Goes H.Ends H.Exceeds s n left a broken
        → Hears H.Goes H.Ends H.Exceeds s n left (a ++ b) broken }
{
    fronts_stay();
}
