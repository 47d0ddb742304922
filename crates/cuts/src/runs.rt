// Many steps: what one does not lose, many do not lose.
ghost use Rattle.cuts.specs.Promises.{StepsLoseNothing, ReductionsCompose, ReductionsAreFaithful, ListedStepsRun, ListedStepsAddUp, RunsLoseNothing, RunsAreFaithful, RunsLeaveNoEmptyRoad, RunsToDisjointPairs};

// One admitted step, by whichever rule.
#[tactic(auto, using(crate::proofs::Stepping::step_reduces))]
pub fn steps_lose_nothing()
    ensures { StepsLoseNothing }
{}

// Two reductions in a row are one.
pub fn reductions_compose()
    ensures { ReductionsCompose }
{}

// What remains has the fewest of the start, but for the links cut.
#[tactic(auto, using(crate::proofs::Faithfulness::reductions_are_faithful))]
pub fn reductions_are_faithful()
    ensures { ReductionsAreFaithful }
{}

// A list of steps, each admitted in its turn, is a run.
#[tactic(auto, using(crate::proofs::Running::listed_run))]
pub fn listed_steps_run()
    ensures { ListedStepsRun }
{}

// What is left and the links cut make up the budget, and no link is cut twice.
#[tactic(auto, using(crate::proofs::Running::listed_sum))]
pub fn listed_steps_add_up()
    ensures { ListedStepsAddUp }
{}

// A run is a reduction, however many steps it has.
#[tactic(auto, using(crate::proofs::Running::run_reduces))]
pub fn runs_lose_nothing()
    ensures { RunsLoseNothing }
{}

// Whoever solves what a run leaves has solved its start.
#[tactic(auto, using(crate::proofs::Faithfulness::run_is_faithful))]
pub fn runs_are_faithful()
    ensures { RunsAreFaithful }
{}

// No open road becomes empty along a run.
#[tactic(auto, using(crate::proofs::Faithfulness::run_roads))]
pub fn runs_leave_no_empty_road()
    ensures { RunsLeaveNoEmptyRoad }
{}

// A run that comes to disjoint pairs started with no cut.
#[tactic(auto, using(crate::proofs::Faithfulness::run_no_cut))]
pub fn runs_to_disjoint_pairs_leave_no_cut()
    ensures { RunsToDisjointPairs }
{}
