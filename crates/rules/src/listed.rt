// Questions on listed pairs.
ghost use Rattle.book.specs.Posed.{posed};
ghost use Rattle.cuts.specs.Tests.{pairwise};
ghost use Rattle.rules.specs.Sharing.{may_share, share_only, towards};
ghost use Rattle.std.specs.Prelude.{◌≡◌};
ghost use Rattle.std.specs.List.{list_all};

use crate::common::Common;
use book::RoadBook;

// Overloaded link: the roads of all listed pairs pass the link.
pub fn all_pass<B: RoadBook>(book: &B, link: u16, pairs: &[u16]) -> bool
    ensures { result ≡ list_all ((posed (B.meaning book.now)).on link) pairs.now }
{
    pairs.iter().all(|pair| book.on_road(link, *pair))
}

fn may_share<B: RoadBook>(book: &B, common: Common, link: u16) -> bool
    ensures { result ≡ may_share (posed (B.meaning book.now)) common link }
{
    match common {
        Common::RoadOf(pair) => book.on_road(link, pair),
        Common::Link(only) => link == only,
        Common::Nothing => false,
    }
}

fn two_share_only<B: RoadBook>(book: &B, common: Common, p: u16, q: u16) -> bool
    ensures { result ≡ share_only (posed (B.meaning book.now)) common p q }
{
    (0..book.highest() + 1).all(|link| {
        !(book.on_road(link, p) && book.on_road(link, q)) || may_share(book, common, link)
    })
}

fn each_shares_only<B: RoadBook>(book: &B, common: Common, pairs: &[u16], q: u16) -> bool
    ensures { result ≡ list_all (towards (share_only (posed (B.meaning book.now)) common) q) pairs.now }
{
    pairs
        .iter()
        .all(|pair| two_share_only(book, common, *pair, q))
}

// Any two of the listed pairs share no link but those that they may have in common. The project fixes this loop with
// the index.
pub fn share_only<B: RoadBook>(book: &B, common: Common, pairs: &[u16]) -> bool
    ensures { result ≡ pairwise (share_only (posed (B.meaning book.now)) common) pairs.now }
{
    for (i, pair) in pairs.iter().enumerate() {
        if !each_shares_only(book, common, &pairs[..i], *pair) {
            return false;
        }
    }
    true
}
