// The fewest links of a cut.
ghost use Rattle.cuts.specs.Promises.{SearchDecides, FewestIsFound, FewestIsUnique};

// Trying every set of links decides whether there is a cut within a number.
#[tactic(auto, using(crate::proofs::Searching::has_cut_decided))]
pub fn search_decides()
    ensures { SearchDecides }
{}

// Where there is a cut there is a fewest.
#[tactic(auto, using(crate::proofs::LeastCut::fewest_found))]
pub fn fewest_is_found()
    ensures { FewestIsFound }
{}

// It is one number.
#[tactic(auto, using(crate::proofs::LeastCut::fewest_unique))]
pub fn fewest_is_unique()
    ensures { FewestIsUnique }
{}
