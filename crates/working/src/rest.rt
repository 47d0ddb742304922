// The rest of a working is a road-book again.
// An index is widened by `as`: `usize::from` would be longer there, and no plainer.
ghost use Rattle.working.specs.Rest.{rest};
ghost use Rattle.working.specs.Lawful.{rest_lawful};

use crate::tally::LinkMark;
use crate::working::Working;
use book::{Leg, RoadBook};

impl<'a, B: RoadBook> RoadBook for Working<'a, B> {
    ghost meaning = { λ w. rest (B.meaning w.book.now) w.tally };

    ghost lawful = { λ w. rest_lawful (B.meaning w.book.now) w.tally (B.lawful w.book.now) };

    fn highest(&self) -> u16 {
        self.book.highest()
    }

    fn pairs(&self) -> u16 {
        self.book.pairs()
    }

    fn is_live(&self, link: u16) -> bool {
        self.book.is_live(link) && matches!(self.tally.links[link as usize], LinkMark::Unmarked)
    }

    fn is_open(&self, pair: u16) -> bool {
        self.book.is_open(pair) && !self.tally.dropped[pair as usize]
    }

    fn rank(&self, pair: u16) -> u16 {
        if !self.is_open(pair) {
            return 0;
        }
        self.book.rank(pair)
    }

    #[tactic(auto, using(crate::proofs::Legs::rest_road))]
    fn on_road(&self, link: u16, pair: u16) -> bool {
        self.is_live(link) && self.is_open(pair) && self.book.on_road(link, pair)
    }

    // Passes over the marked links of the book's own leg.
    fn link_at(&self, pair: u16, leg: Leg, place: u16) -> Option<u16> {
        if !self.is_open(pair) {
            return None;
        }
        (0..256)
            .map_while(|at| self.book.link_at(pair, leg, at))
            .filter(|link| self.is_unmarked(*link))
            .nth(usize::from(place))
    }
}
