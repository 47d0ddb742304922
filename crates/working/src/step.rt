// The steps of a working, named by the reduction rules that admit them.

#[derive(Clone, Copy)]
pub enum Step<'a> {
    // idle link: no open road passes the link; it is welded
    IdleLink(u16),
    // dominated link: every open road through the first link passes the second; the first is welded
    DominatedLink(u16, u16),
    // unit path: the road of the pair is the link alone; the link is cut
    UnitRoad(u16, u16),
    // dominated pair: the road of the second pair has every link of the first's; the second is dropped
    DominatedPair(u16, u16),
    // common factor: one listed pair more than is left share links on the pair's road alone; the pair is dropped
    CommonFactor(u16, &'a [u16]),
    // overloaded link: one listed pair more than is left pass the link and share no other; the link is cut
    OverloadedLink(u16, &'a [u16]),
    // disjoint pairs: one listed pair more than is left share no link; there is no cut within what is left
    DisjointPairs(&'a [u16]),
}
