//! That both sides of an exchange accept each other.
ghost use Rattle.scram.specs.Servers.{IsNoFirst, IsUnproven, IsNoLast};
ghost use Rattle.scram.specs.Clients.{IsNoChallenge, IsForged, IsNoVerdict};
ghost use Rattle.scram.specs.Laws.{Pair, Opens, Challenges, Proves, Shows, server_of};

/// A client and a server whose verifier was made of the same password accept each other: no side
/// refuses what the other has said.
pub fn accept_each_other()
    ensures opening { (pair : Pair) (one : Opens pair)
        → IsNoFirst (server_of pair) one.message → ⊥ }
    ensures challenge { (pair : Pair) (one : Opens pair) (two : Challenges pair one)
        → IsNoChallenge one.client two.message → ⊥ }
    ensures last { (pair : Pair) (one : Opens pair) (two : Challenges pair one)
        (three : Proves pair one two) → IsNoLast two.server three.message → ⊥ }
    ensures proof { (pair : Pair) (one : Opens pair) (two : Challenges pair one)
        (three : Proves pair one two) → IsUnproven two.server three.message → ⊥ }
    ensures verdict { (pair : Pair) (one : Opens pair) (two : Challenges pair one)
        (three : Proves pair one two) (four : Shows pair one two three)
        → IsNoVerdict three.client four.message → ⊥ }
    ensures signature { (pair : Pair) (one : Opens pair) (two : Challenges pair one)
        (three : Proves pair one two) (four : Shows pair one two three)
        → IsForged three.client four.message → ⊥ }
{}
