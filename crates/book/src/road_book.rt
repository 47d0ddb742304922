// What every road-book answers.
ghost use Rattle.std.specs.Prelude.{◌≡◌, ℕ};
ghost use Rattle.book.specs.Meaning.{Lawful, Meaning, link_at, on_road, rank_at};

use crate::leg::Leg;

// A source of roads. `meaning` is all that it tells, as one value, and `lawful` shows the law of books, the tree law
// among it. Any number may be asked of: for a link that is not live or a pair that is not open the answer is no, 0 or
// absent. No question changes the book.
pub trait RoadBook {
    ghost meaning: { Self → Meaning };

    ghost lawful: { (b : Self) → Lawful (meaning b) };

    // The highest number of a link.
    fn highest(&self) -> u16
        ensures { result ≡ (meaning self.now).highest };

    // How many pairs there are, open or not.
    fn pairs(&self) -> u16
        ensures { result ≡ (meaning self.now).pairs };

    // Whether a link is live: whether it may still be cut.
    fn is_live(&self, link: u16) -> bool
        ensures { result ≡ (meaning self.now).live link };

    // Whether a pair is open: whether it has still to be separated.
    fn is_open(&self, pair: u16) -> bool
        ensures { result ≡ (meaning self.now).opened pair };

    // The rank of an open pair: how deep its turning term lies.
    fn rank(&self, pair: u16) -> u16
        ensures { result ≡ rank_at (meaning self.now) pair };

    // Whether a live link is on the road of an open pair.
    fn on_road(&self, link: u16, pair: u16) -> bool
        ensures { result ≡ on_road (meaning self.now) link pair };

    // The link at a place of a leg of an open pair, counted from 0 at the leg's top.
    fn link_at(&self, pair: u16, leg: Leg, place: u16) -> Option<u16>
        ensures { result ≡ link_at (meaning self.now) leg pair place };
}
