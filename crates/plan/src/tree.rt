// The tree of a plan, asked by following broader terms: depths, ancestors, turning terms.
ghost use Rattle.std.specs.Prelude.{◌≡◌, ◌<◌, ◌≤◌, length};
ghost use Rattle.plan.specs.Plans.{broader_of, ends_of};
ghost use Rattle.plan.specs.Tree.{among, rank, way};
ghost use Rattle.std.specs.List.{slice_get};

use crate::climb::Climb;
use crate::shape::Plan;

impl Plan {
    // How many terms there are.
    pub fn terms(&self) -> u16
        ensures { result ≡ self.now.terms }
    {
        self.terms
    }

    // How many pairs there are.
    pub fn pairs(&self) -> u16
        ensures { result ≡ self.now.pairs }
    {
        self.pairs
    }

    // How many links may be cut.
    pub fn budget(&self) -> u8
        ensures { result ≡ self.now.budget }
    {
        self.budget
    }

    // The two terms of a pair, the smaller first; 0 and 0 for what is no pair, as a road-book answers no, 0 or absent.
    pub fn ends(&self, pair: u16) -> (u16, u16)
        ensures { (result.0 ≡ (ends_of self.now pair).0) × (result.1 ≡ (ends_of self.now pair).1) }
    {
        let (first, second) = self.ends.get(usize::from(pair)).copied().unwrap_or((0, 0));
        (u16::from(first), u16::from(second))
    }

    // The broader term of a term; 0 for term 0 and for what is no term, as above.
    pub fn broader(&self, term: u16) -> u16
        ensures value { result ≡ broader_of self.now term }
        ensures falls { 0 < term → result < term }
    {
        let above = self.broader.get(usize::from(term)).copied().unwrap_or(0);
        u16::from(above)
    }

    // How many links lead from term 0 down to a term.
    pub fn depth(&self, term: u16) -> u16
        ensures value { result ≡ length (way (broader_of self.now) term) }
        ensures bound { result ≤ term }
    {
        Climb::new(self, term).count() as u16
    }

    // Whether a link lies above a term: whether it is on the way from term 0 down to it.
    pub fn is_above(&self, link: u16, term: u16) -> bool
        ensures { result ≡ among link (way (broader_of self.now) term) }
    {
        // the links fall on the way up; a loop, since the climb's `find` takes half as many instructions more
        let mut higher = term;
        while higher > link {
            higher = self.broader(higher);
        }
        higher == link && link != 0
    }

    // The number of links from term 0 down to the turning term of two terms, their lowest common ancestor.
    pub fn rank(&self, a: u16, b: u16) -> u16
        ensures { result ≡ rank (broader_of self.now) a b }
    {
        // both climb, the larger each time, until they meet; to ask of each link on one way whether it is above the
        // other term is plainer, but takes up to sixty times as long
        let mut s = a;
        let mut t = b;
        while s != t {
            if s < t {
                t = self.broader(t);
            } else {
                s = self.broader(s);
            }
        }
        self.depth(s)
    }

    // The link at a place of the way from term 0 down to a term.
    pub fn link_on_way(&self, term: u16, place: u16) -> Option<u16>
        ensures { result ≡ slice_get (way (broader_of self.now) term) place }
    {
        let depth = self.depth(term);
        if place >= depth {
            return None;
        }
        Climb::new(self, term).nth(usize::from(depth - 1 - place))
    }
}
