// Makes a step.
ghost use Rattle.working.specs.Judging.{judged, rule_of, Outcome};
ghost use Rattle.std.specs.Prelude.{◌≡◌};

use crate::fault::WorkingFault;
use crate::step::Step;
use crate::tally::State;
use crate::working::Working;
use book::RoadBook;

impl<'a, B: RoadBook> Working<'a, B> {
    // Makes a step where its rule admits it. A refused step changes nothing. The project fixes this match on the state and
    // the step.
    pub fn step(&mut self, step: Step) -> Result<(), WorkingFault>
        ensures outcome { Outcome (judged (B.meaning self.old.book.now) self.old.tally (rule_of step.entry)) self.old.tally result self.new.tally }
        ensures keeps { self.new.book ≡ self.old.book }
    {
        match (self.tally.state, step) {
            (State::Open, Step::IdleLink(link)) => self.idle_link(link),
            (State::Open, Step::DominatedLink(link, by)) => self.dominated_link(link, by),
            (State::Open, Step::UnitRoad(link, pair)) => self.unit_road(link, pair),
            (State::Open, Step::DominatedPair(inner, outer)) => self.dominated_pair(inner, outer),
            (State::Open, Step::CommonFactor(pair, pairs)) => self.common_factor(pair, pairs),
            (State::Open, Step::OverloadedLink(link, pairs)) => self.overloaded_link(link, pairs),
            (State::Open, Step::DisjointPairs(pairs)) => self.disjoint_pairs(pairs),
            (State::NoCut | State::Parted, _) => Err(WorkingFault::Ended),
        }
    }
}
