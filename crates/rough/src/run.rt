// Goes through the open pairs in their order.
// An index is widened by `as`: `usize::from` would be longer there, and no plainer.
ghost use Rattle.std.specs.Prelude.{◌≡◌, ◌<◌, true, [], ◌∷◌, ◌++◌, length, if◌then◌else◌};
ghost use Rattle.book.specs.Meaning.{leg_of, link_at};
ghost use Rattle.book.specs.Posed.{posed};
ghost use Rattle.cuts.specs.Links.{union};
ghost use Rattle.cuts.specs.Search.{meets};
ghost use Rattle.rough.specs.Arrays.{gone_by, held};
ghost use Rattle.rough.specs.Run.{gone, top, with_tops};

use crate::order::{first_left, open_pairs, ranks_of};
use crate::roads::is_met;
use arrayvec::ArrayVec;
use book::{Leg, RoadBook};

// The link at the top of a leg, next to the turning term.
fn top_link<B: RoadBook>(book: &B, pair: u16, leg: Leg) -> Option<u16>
    ensures { result ≡ link_at (B.meaning book.now) leg pair 0 }
{
    book.link_at(pair, leg, 0)
}

// Pairs are asked by number, so an open pair has no type of its own, here and in the next two.
fn choose_top<B: RoadBook>(book: &B, chosen: &mut [bool; 256], pair: u16, leg: Leg)
    requires { (B.meaning book.now).opened pair ≡ true }
    ensures { held chosen.new ≡ union (held chosen.old) (top (leg_of (B.meaning book.now) leg pair)) }
{
    if let Some(link) = top_link(book, pair, leg) {
        chosen[link as usize] = true;
    }
}

// Chooses the top link of each leg that has one.
fn choose_tops<B: RoadBook>(book: &B, chosen: &mut [bool; 256], pair: u16)
    requires { (B.meaning book.now).opened pair ≡ true }
    ensures { held chosen.new ≡ with_tops (B.meaning book.now) (held chosen.old) pair }
{
    choose_top(book, chosen, pair, Leg::First);
    choose_top(book, chosen, pair, Leg::Second);
}

// A pair that no chosen link meets is written down, and its tops are chosen.
fn take_up<B: RoadBook>(
    book: &B,
    chosen: &mut [bool; 256],
    apart: &mut ArrayVec<u16, 256>,
    pair: u16,
)
    requires opened { (B.meaning book.now).opened pair ≡ true }
    requires room { length apart.old.items < 256 }
    ensures chosen { held chosen.new ≡ (if meets (posed (B.meaning book.now)) (held chosen.old) pair then held chosen.old else with_tops (B.meaning book.now) (held chosen.old) pair) }
    ensures apart { apart.new.items ≡ (if meets (posed (B.meaning book.now)) (held chosen.old) pair then apart.old.items else apart.old.items ++ (pair ∷ [])) }
{
    if is_met(book, chosen, pair) {
        return;
    }
    apart.push(pair);
    choose_tops(book, chosen, pair);
}

// The links chosen and the pairs written down, once all open pairs are gone through. The ranks stay while what is left
// changes, so they are two arrays; a list sorted once would be a third.
pub(crate) fn go_through<B: RoadBook>(book: &B) -> ([bool; 256], ArrayVec<u16, 256>)
    ensures { gone_by result.0 result.1.items ≡ gone (B.meaning book.now) }
{
    let ranks = ranks_of(book);
    let pairs = book.pairs();
    let mut left = open_pairs(book);
    let mut chosen = [false; 256];
    let mut apart = ArrayVec::new();
    while let Some(pair) = first_left(&ranks, &left, pairs) {
        left[pair as usize] = false;
        take_up(book, &mut chosen, &mut apart, pair);
    }
    (chosen, apart)
}
