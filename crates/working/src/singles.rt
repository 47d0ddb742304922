// Steps on one or two links or pairs. A step is marked in place once every check has passed: a tally answered whole would be
// copied at each step, at each refused one too.
ghost use Rattle.std.specs.Prelude.{◌≡◌};
ghost use Rattle.cuts.specs.Steps.{dominated_link, dominated_pair, idle_link, unit_road};
ghost use Rattle.working.specs.Judging.{ruled_in, Outcome};

use crate::checks::check;
use crate::fault::WorkingFault;
use crate::working::Working;
use book::RoadBook;
use rules::{is_always_with, is_road_alone, is_road_within, passes_no_road};

impl<'a, B: RoadBook> Working<'a, B> {
    pub(crate) fn idle_link(&mut self, idle: u16) -> Result<(), WorkingFault>
        ensures outcome { Outcome (ruled_in (B.meaning self.old.book.now) self.old.tally (idle_link idle)) self.old.tally result self.new.tally }
        ensures keeps { self.new.book ≡ self.old.book }
    {
        check(self.is_live(idle), WorkingFault::NotLive(idle))?;
        check(passes_no_road(self, idle), WorkingFault::RuleFails(idle))?;
        self.tally.weld(idle);
        Ok(())
    }

    pub(crate) fn dominated_link(&mut self, link: u16, by: u16) -> Result<(), WorkingFault>
        ensures outcome { Outcome (ruled_in (B.meaning self.old.book.now) self.old.tally (dominated_link link by)) self.old.tally result self.new.tally }
        ensures keeps { self.new.book ≡ self.old.book }
    {
        check(self.is_live(link), WorkingFault::NotLive(link))?;
        check(self.is_live(by), WorkingFault::NotLive(by))?;
        check(link != by, WorkingFault::Repeated(by))?;
        check(
            is_always_with(self, link, by),
            WorkingFault::RuleFails(link),
        )?;
        self.tally.weld(link);
        Ok(())
    }

    pub(crate) fn unit_road(&mut self, link: u16, pair: u16) -> Result<(), WorkingFault>
        ensures outcome { Outcome (ruled_in (B.meaning self.old.book.now) self.old.tally (unit_road link pair)) self.old.tally result self.new.tally }
        ensures keeps { self.new.book ≡ self.old.book }
    {
        check(self.is_live(link), WorkingFault::NotLive(link))?;
        check(self.is_open(pair), WorkingFault::NotOpen(pair))?;
        check(self.tally.left != 0, WorkingFault::NothingLeft(link))?;
        check(
            is_road_alone(self, link, pair),
            WorkingFault::RuleFails(link),
        )?;
        self.cut(link);
        Ok(())
    }

    pub(crate) fn dominated_pair(&mut self, inner: u16, outer: u16) -> Result<(), WorkingFault>
        ensures outcome { Outcome (ruled_in (B.meaning self.old.book.now) self.old.tally (dominated_pair inner outer)) self.old.tally result self.new.tally }
        ensures keeps { self.new.book ≡ self.old.book }
    {
        check(self.is_open(inner), WorkingFault::NotOpen(inner))?;
        check(self.is_open(outer), WorkingFault::NotOpen(outer))?;
        check(inner != outer, WorkingFault::Repeated(outer))?;
        check(
            is_road_within(self, inner, outer),
            WorkingFault::RuleFails(inner),
        )?;
        self.tally.drop_pair(outer);
        Ok(())
    }
}
