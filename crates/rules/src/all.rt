// Questions on all open pairs or on all links of a road.
ghost use Rattle.book.specs.Meaning.{on_road};
ghost use Rattle.book.specs.Posed.{posed};
ghost use Rattle.cuts.specs.After.{off_road};
ghost use Rattle.cuts.specs.Tests.{all_links, all_pairs, also_on, follows, sole_on};
ghost use Rattle.std.specs.Prelude.{◌≡◌, ◌&&◌};

use book::RoadBook;

// Idle link: no open road passes the link.
pub fn passes_no_road<B: RoadBook>(book: &B, link: u16) -> bool
    ensures { result ≡ all_pairs (posed (B.meaning book.now)) (off_road (posed (B.meaning book.now)) link) }
{
    (0..book.pairs()).all(|pair| !book.on_road(link, pair))
}

// No link but this one is on the road of the pair.
fn has_no_other<B: RoadBook>(book: &B, link: u16, pair: u16) -> bool
    ensures { result ≡ all_links (posed (B.meaning book.now)) (sole_on (posed (B.meaning book.now)) link pair) }
{
    (0..book.highest() + 1).all(|other| other == link || !book.on_road(other, pair))
}

// Unit path: the road of the pair is the link alone.
pub fn is_road_alone<B: RoadBook>(book: &B, link: u16, pair: u16) -> bool
    ensures { result ≡ (on_road (B.meaning book.now) link pair && all_links (posed (B.meaning book.now)) (sole_on (posed (B.meaning book.now)) link pair)) }
{
    book.on_road(link, pair) && has_no_other(book, link, pair)
}

// Dominated link: every open road through the link passes the other.
pub fn is_always_with<B: RoadBook>(book: &B, link: u16, other: u16) -> bool
    ensures { result ≡ all_pairs (posed (B.meaning book.now)) (follows (posed (B.meaning book.now)) link other) }
{
    (0..book.pairs()).all(|pair| !book.on_road(link, pair) || book.on_road(other, pair))
}

// Dominated pair: every link of the inner pair's road is on the outer pair's.
pub fn is_road_within<B: RoadBook>(book: &B, inner: u16, outer: u16) -> bool
    ensures { result ≡ all_links (posed (B.meaning book.now)) (also_on (posed (B.meaning book.now)) inner outer) }
{
    (0..book.highest() + 1).all(|link| !book.on_road(link, inner) || book.on_road(link, outer))
}
