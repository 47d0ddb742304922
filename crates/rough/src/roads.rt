// What a rough cut asks of the roads of a book.
// An index is widened by `as`: `usize::from` would be longer there, and no plainer.
ghost use Rattle.book.specs.Posed.{posed};
ghost use Rattle.cuts.specs.Search.{meets};
ghost use Rattle.rough.specs.Arrays.{held};
ghost use Rattle.rough.specs.Outcome.{empty_road, lowest};
ghost use Rattle.std.specs.Prelude.{◌≡◌};

use book::{Leg, RoadBook};

// Whether an open pair has no link on its road.
fn has_empty_road<B: RoadBook>(book: &B, pair: u16) -> bool
    ensures { result ≡ empty_road (B.meaning book.now) pair }
{
    book.is_open(pair)
        && book.link_at(pair, Leg::First, 0).is_none()
        && book.link_at(pair, Leg::Second, 0).is_none()
}

// The lowest of these pairs.
pub(crate) fn lowest_empty<B: RoadBook>(book: &B) -> Option<u16>
    ensures { result ≡ lowest (empty_road (B.meaning book.now)) (B.meaning book.now).pairs }
{
    (0..book.pairs()).find(|pair| has_empty_road(book, *pair))
}

// Whether a chosen link is on the pair's road.
pub(crate) fn is_met<B: RoadBook>(book: &B, chosen: &[bool; 256], pair: u16) -> bool
    ensures { result ≡ meets (posed (B.meaning book.now)) (held chosen.now) pair }
{
    (0..book.highest() + 1).any(|link| chosen[link as usize] && book.on_road(link, pair))
}
