// The plan that is there before any file is read.
ghost use Rattle.plan.specs.Plans.{IsFresh};

use crate::shape::Plan;

impl Plan {
    // One term, no pair, budget 0.
    pub fn fresh() -> Self
        ensures { IsFresh result }
    {
        Plan {
            terms: 1,
            pairs: 0,
            budget: 0,
            broader: [0; 256],
            ends: [(0, 0); 256],
        }
    }
}
