// The seven reduction rules: none loses anything.
ghost use Rattle.cuts.specs.Promises.{IdleLinkLosesNothing, DominatedLinkLosesNothing, UnitRoadLosesNothing, DominatedPairLosesNothing, CommonFactorLosesNothing, OverloadedLinkLosesNothing, DisjointPairsLeaveNoCut};

// Weld a link that no road needs.
pub fn idle_link_loses_nothing()
    ensures { IdleLinkLosesNothing }
{}

// Weld a link where another parts whatever it parts.
pub fn dominated_link_loses_nothing()
    ensures { DominatedLinkLosesNothing }
{}

// Cut the only link on a road.
pub fn unit_road_loses_nothing()
    ensures { UnitRoadLosesNothing }
{}

// Drop a pair that is parted wherever another is.
pub fn dominated_pair_loses_nothing()
    ensures { DominatedPairLosesNothing }
{}

// Drop a pair whose road has all that too many others share.
pub fn common_factor_loses_nothing()
    ensures { CommonFactorLosesNothing }
{}

// Cut a link without which too many pairs would need a link each.
pub fn overloaded_link_loses_nothing()
    ensures { OverloadedLinkLosesNothing }
{}

// Give up where too many pairs share no link.
pub fn disjoint_pairs_leave_no_cut()
    ensures { DisjointPairsLeaveNoCut }
{}
