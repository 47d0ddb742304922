// What the marks of a tally become.
// An index is widened by `as`: `usize::from` would be longer there, and no plainer.
ghost use Rattle.std.specs.Prelude.{◌≡◌, ◌<◌};
ghost use Rattle.book.specs.Posed.{posed};
ghost use Rattle.working.specs.Marking.{cut_link, drop_pair, end_none, weld_link};
ghost use Rattle.working.specs.Rest.{rest};

use crate::tally::{LinkMark, State, Tally};
use crate::working::Working;
use book::RoadBook;

// Each number is below 256, which the check shows at each call; a `u8` would put a cast there.
impl Tally {
    pub(crate) fn weld(&mut self, link: u16)
        requires { link < 256 }
        ensures { self.new ≡ weld_link link self.old }
    {
        self.links[link as usize] = LinkMark::Welded;
    }

    pub(crate) fn drop_pair(&mut self, pair: u16)
        requires { pair < 256 }
        ensures { self.new ≡ drop_pair pair self.old }
    {
        self.dropped[pair as usize] = true;
    }

    pub(crate) fn end_none(&mut self)
        ensures { self.new ≡ end_none self.old }
    {
        self.state = State::NoCut;
    }
}

impl<'a, B: RoadBook> Working<'a, B> {
    // Cuts a link: every open pair whose road passes it is dropped. A loop over the pairs that the book has: an array made
    // anew is filled at all 256 places, however few they are.
    pub(crate) fn cut(&mut self, link: u16)
        requires link { link < 256 }
        requires left { 0 < self.old.tally.left }
        ensures tallies { self.new.tally ≡ cut_link (posed (rest (B.meaning self.old.book.now) self.old.tally)) link self.old.tally }
        ensures keeps { self.new.book ≡ self.old.book }
    {
        let mut dropped = self.tally.dropped;
        for pair in 0..self.pairs() {
            if self.on_road(link, pair) {
                dropped[pair as usize] = true;
            }
        }
        self.tally.dropped = dropped;
        self.tally.links[link as usize] = LinkMark::Cut;
        self.tally.left -= 1;
    }
}
