// Each rule has a test that computes whether it applies.
ghost use Rattle.cuts.specs.Promises.{IdleLinkDecided, DominatedLinkDecided, UnitRoadDecided, DominatedPairDecided, CommonFactorDecided, OverloadedLinkDecided, DisjointPairsDecided, StepsDecided};

#[tactic(auto, using(crate::proofs::RuleTests::idle_link_decided))]
pub fn idle_link_is_decided()
    ensures { IdleLinkDecided }
{}

#[tactic(auto, using(crate::proofs::RuleTests::dominated_link_decided))]
pub fn dominated_link_is_decided()
    ensures { DominatedLinkDecided }
{}

#[tactic(auto, using(crate::proofs::RuleTests::unit_road_decided))]
pub fn unit_road_is_decided()
    ensures { UnitRoadDecided }
{}

#[tactic(auto, using(crate::proofs::RuleTests::dominated_pair_decided))]
pub fn dominated_pair_is_decided()
    ensures { DominatedPairDecided }
{}

#[tactic(auto, using(crate::proofs::RuleTests::common_factor_decided))]
pub fn common_factor_is_decided()
    ensures { CommonFactorDecided }
{}

#[tactic(auto, using(crate::proofs::RuleTests::overloaded_link_decided))]
pub fn overloaded_link_is_decided()
    ensures { OverloadedLinkDecided }
{}

#[tactic(auto, using(crate::proofs::RuleTests::disjoint_pairs_decided))]
pub fn disjoint_pairs_are_decided()
    ensures { DisjointPairsDecided }
{}

#[tactic(auto, using(crate::proofs::Stepping::step_decided))]
pub fn steps_are_decided()
    ensures { StepsDecided }
{}
