// Why a rough cut is refused, each refusal with its place.

#[derive(Clone, Copy, PartialEq, Eq, Debug)]
pub enum RoughFault {
    // an open pair with no link on its road, which no cut separates; the lowest such pair
    EmptyRoad(u16),
    // the slice for the links is too small; how many links there are
    LinksBuffer(usize),
    // the slice for the apart pairs is too small; how many pairs there are
    PairsBuffer(usize),
}
