// What is true of every book that tells a plan. The contract of each function is the promise; there is nothing to run.
ghost use Rattle.book.specs.Tells.{TellersCutAlike, TellersHaveRoads};

// The cuts of a book that tells a plan are the plan's own.
#[tactic(auto, using(crate::proofs::Telling::cuts_alike))]
pub fn tellers_cut_alike()
    ensures { TellersCutAlike }
{}

// No open road of a book that tells a plan is empty.
#[tactic(auto, using(crate::proofs::Telling::roads_there))]
pub fn tellers_have_roads()
    ensures { TellersHaveRoads }
{}
