// How many links a cut has at least.
ghost use Rattle.cuts.specs.Promises.{MetPairsBound, DisjointPairsBound};

// Pairs met by a set, no two by one link, are at most as many as its links.
#[tactic(auto, using(crate::proofs::Bound::apart_bound))]
pub fn met_pairs_bound()
    ensures { MetPairsBound }
{}

// Open pairs that share no link are at most as many as the links of any cut.
#[tactic(auto, using(crate::proofs::Bound::disjoint_bound))]
pub fn disjoint_pairs_bound()
    ensures { DisjointPairsBound }
{}
