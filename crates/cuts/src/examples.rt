// Each rule at work on a small example, and a run from beginning to end.
ghost use Rattle.cuts.specs.Examples.{LadderRun, RulesApply};

// No rule is empty: each applies to one of four small instances.
#[tactic(auto, using(crate::proofs::Exemplified::rules_apply))]
pub fn rules_apply()
    ensures { RulesApply }
{}

// Three steps solve an instance of two links and two pairs.
#[tactic(auto, using(crate::proofs::Exemplified::ladder_run))]
pub fn ladder_is_solved()
    ensures { LadderRun }
{}
