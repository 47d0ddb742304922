// Rules that look right and are wrong.
ghost use Rattle.cuts.specs.Mistakes.{WeldBothIsWrong, DropBothIsWrong, CutLooseIsWrong};

// Of two links that dominate each other only one may be welded.
#[tactic(auto, using(crate::proofs::Mistaken::weld_both_is_wrong))]
pub fn weld_both_is_wrong()
    ensures { WeldBothIsWrong }
{}

// Of two equal pairs only one may be dropped.
#[tactic(auto, using(crate::proofs::Mistaken::drop_both_is_wrong))]
pub fn drop_both_is_wrong()
    ensures { DropBothIsWrong }
{}

// Pairs that share more than the link do not overload it.
#[tactic(auto, using(crate::proofs::Mistaken::cut_loose_is_wrong))]
pub fn cut_loose_is_wrong()
    ensures { CutLooseIsWrong }
{}
