// The climbing book: it keeps nothing but the plan, and follows broader terms at each question.
ghost use Rattle.book.specs.Tells.{Tells};
ghost use Rattle.book.specs.Told.{told, told_lawful};
ghost use Rattle.std.specs.Prelude.{◌≡◌};

use crate::leg::Leg;
use crate::road_book::RoadBook;
use plan::Plan;

#[derive(Clone, Copy)]
pub struct ClimbingBook<'a> {
    pub(crate) plan: &'a Plan,
}

impl<'a> ClimbingBook<'a> {
    // A book that tells the plan.
    #[tactic(auto, using(crate::proofs::Telling::told_tells))]
    pub fn new(plan: &'a Plan) -> Self
        ensures keeps { result.plan.now ≡ plan.now }
        ensures tells { Tells (told result.plan.now) plan.now }
    {
        ClimbingBook { plan }
    }
}

impl<'a> RoadBook for ClimbingBook<'a> {
    ghost meaning = { λ b. told b.plan.now };

    ghost lawful = { λ b. told_lawful b.plan.now };

    fn highest(&self) -> u16 {
        self.plan.terms() - 1
    }

    fn pairs(&self) -> u16 {
        self.plan.pairs()
    }

    fn is_live(&self, link: u16) -> bool {
        0 < link && link < self.plan.terms()
    }

    fn is_open(&self, pair: u16) -> bool {
        pair < self.pairs()
    }

    fn rank(&self, pair: u16) -> u16 {
        if !self.is_open(pair) {
            return 0;
        }
        let (a, b) = self.plan.ends(pair);
        self.plan.rank(a, b)
    }

    // A link is on the road between two terms exactly when it lies above one of them alone.
    #[tactic(auto, using(crate::proofs::Found::on_told))]
    fn on_road(&self, link: u16, pair: u16) -> bool {
        if !self.is_live(link) || !self.is_open(pair) {
            return false;
        }
        let (first, second) = self.plan.ends(pair);
        self.plan.is_above(link, first) != self.plan.is_above(link, second)
    }

    // A leg is the way to one of the two terms, from the turning term on.
    #[tactic(auto, using(crate::proofs::Found::first_told, crate::proofs::Found::second_told))]
    fn link_at(&self, pair: u16, leg: Leg, place: u16) -> Option<u16> {
        if !self.is_open(pair) {
            return None;
        }
        let (first, second) = self.plan.ends(pair);
        let at = self.plan.rank(first, second).saturating_add(place);
        match leg {
            Leg::First => self.plan.link_on_way(first, at),
            Leg::Second => self.plan.link_on_way(second, at),
        }
    }
}
