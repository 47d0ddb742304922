// The sheet as a road-book.
// An index is widened by `as`: `usize::from` would be longer there, and no plainer.
ghost use Rattle.std.specs.Prelude.{◌≡◌, ◌<◌, ◌==◌};
ghost use Rattle.book.specs.Sheets.{bit_in, first_test, leg_test};
ghost use Rattle.book.specs.Tells.{Tells};
ghost use Rattle.book.specs.Told.{told, told_lawful};

use crate::climbing::ClimbingBook;
use crate::filling::{fill, fill_ranks};
use crate::leg::Leg;
use crate::road_book::RoadBook;
use crate::sheet::Sheet;
use plan::Plan;

// Whether the bit of a pair and a link is set: one word and one bit. Bytes in place of the two numbers would be widened
// again at each question, and cost a fifth more.
fn is_set(words: &[u64; 1024], pair: u16, link: u16) -> bool
    requires { (pair < 256) × (link < 256) }
    ensures { result ≡ (bit_in words.now pair link == 1) }
{
    (words[pair as usize * 4 + link as usize / 64] >> (link % 64)) % 2 == 1
}

impl Sheet {
    // A sheet that tells the plan.
    pub fn new(plan: &Plan) -> Self
        ensures keeps { result.plan ≡ plan.now }
        ensures tells { Tells (told result.plan) plan.now }
    {
        let book = ClimbingBook::new(plan);
        Sheet {
            plan: *plan,
            roads: fill(|pair, link| book.on_road(link, pair)),
            firsts: fill(|pair, link| {
                book.on_road(link, pair) && plan.is_above(link, plan.ends(pair).0)
            }),
            ranks: fill_ranks(&book),
        }
    }

    // The climbing book of the same plan.
    fn climbing(&self) -> ClimbingBook<'_>
        ensures { result.plan.now ≡ self.now.plan }
    {
        ClimbingBook { plan: &self.plan }
    }

    // Whether a link is on a leg of a pair: a link of the road that is not on the first leg is on the second.
    #[tactic(auto, using(crate::proofs::Words::road_set, crate::proofs::Words::first_set))]
    fn is_on_leg(&self, pair: u8, leg: Leg, link: u8) -> bool
        ensures { result ≡ leg_test self.now.plan leg pair link }
    {
        let (pair, link) = (u16::from(pair), u16::from(link));
        match leg {
            Leg::First => is_set(&self.firsts, pair, link),
            Leg::Second => is_set(&self.roads, pair, link) && !is_set(&self.firsts, pair, link),
        }
    }
}

impl RoadBook for Sheet {
    ghost meaning = { λ b. told b.plan };

    ghost lawful = { λ b. told_lawful b.plan };

    fn highest(&self) -> u16 {
        self.climbing().highest()
    }

    fn pairs(&self) -> u16 {
        self.climbing().pairs()
    }

    fn is_live(&self, link: u16) -> bool {
        self.climbing().is_live(link)
    }

    fn is_open(&self, pair: u16) -> bool {
        self.climbing().is_open(pair)
    }

    fn rank(&self, pair: u16) -> u16 {
        if !self.is_open(pair) {
            return 0;
        }
        u16::from(self.ranks[pair as usize])
    }

    #[tactic(auto, using(crate::proofs::Words::road_set))]
    fn on_road(&self, link: u16, pair: u16) -> bool {
        self.is_live(link) && self.is_open(pair) && is_set(&self.roads, pair, link)
    }

    // The links of a leg rise, so they are found by going through the pair's row.
    fn link_at(&self, pair: u16, leg: Leg, place: u16) -> Option<u16> {
        if !self.is_open(pair) {
            return None;
        }
        (0..256)
            .filter(|link| self.is_on_leg(pair as u8, leg, *link as u8))
            .nth(usize::from(place))
    }
}
