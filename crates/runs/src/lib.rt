// Runs: what the steps of a working come to, by the theory of cuts.
#![tactic(auto)]

ghost use Rattle.runs.specs.Judged.{RulesAdmitSteps, StepsFollowRules};
ghost use Rattle.runs.specs.Sample.{SampleSteps};

// A step that is admitted meets its rule, and the rest after it is the one that the rule leaves.
pub fn steps_follow_rules()
    ensures { StepsFollowRules }
{}

// In an open working, a step that meets its rule is admitted.
pub fn rules_admit_steps()
    ensures { RulesAdmitSteps }
{}

// Some steps on a sample plan, by evaluation of the definitions.
pub fn sample_steps()
    ensures { SampleSteps }
{}
