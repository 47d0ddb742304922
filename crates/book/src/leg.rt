// The two legs of a pair's road.

// A leg: the links from the turning term of a pair down to one of its two terms. It is told apart in two places; a
// closure or a trait would take no line away.
#[derive(Clone, Copy, PartialEq, Eq, Debug)]
pub enum Leg {
    // down to the pair's first term
    First,
    // down to its second
    Second,
}
