// Steps on listed pairs, one more than is left, each marked in place once every check has passed.
ghost use Rattle.std.specs.Prelude.{◌≡◌, ◌+◌, MatchResult};
ghost use Rattle.cuts.specs.Steps.{common_factor, disjoint_pairs, overloaded_link};
ghost use Rattle.working.specs.Judging.{check_list_in, ruled_in, Judgement, Outcome};

use crate::checks::check;
use crate::fault::WorkingFault;
use crate::working::Working;
use book::RoadBook;
use rules::{Common, all_pass, first_closed, first_repeat, share_only};

impl<'a, B: RoadBook> Working<'a, B> {
    // One more pair than links are left: if no two share a link, they cannot all be parted.
    fn one_too_many(&self) -> usize
        ensures { result ≡ self.now.tally.left + 1 }
    {
        usize::from(self.tally.left) + 1
    }

    // Whether all listed pairs are open, and none repeats one in front or one listed before it.
    fn check_list(&self, front: &[u16], pairs: &[u16]) -> Result<(), WorkingFault>
        ensures { (j : Judgement) → MatchResult result (λ _. check_list_in (B.meaning self.now.book.now) self.now.tally front.now pairs.now j ≡ j) (λ f. check_list_in (B.meaning self.now.book.now) self.now.tally front.now pairs.now j ≡ Err f) }
    {
        if let Some(pair) = first_closed(self, pairs) {
            return Err(WorkingFault::NotOpen(pair));
        }
        if let Some(pair) = first_repeat(front, pairs) {
            return Err(WorkingFault::Repeated(pair));
        }
        Ok(())
    }

    pub(crate) fn common_factor(&mut self, pair: u16, pairs: &[u16]) -> Result<(), WorkingFault>
        ensures outcome { Outcome (ruled_in (B.meaning self.old.book.now) self.old.tally (common_factor pair pairs.now)) self.old.tally result self.new.tally }
        ensures keeps { self.new.book ≡ self.old.book }
    {
        check(
            pairs.len() == self.one_too_many(),
            WorkingFault::WrongLength(pairs.len()),
        )?;
        check(self.is_open(pair), WorkingFault::NotOpen(pair))?;
        self.check_list(&[pair], pairs)?;
        check(
            share_only(self, Common::RoadOf(pair), pairs),
            WorkingFault::RuleFails(pair),
        )?;
        self.tally.drop_pair(pair);
        Ok(())
    }

    pub(crate) fn overloaded_link(&mut self, link: u16, pairs: &[u16]) -> Result<(), WorkingFault>
        ensures outcome { Outcome (ruled_in (B.meaning self.old.book.now) self.old.tally (overloaded_link link pairs.now)) self.old.tally result self.new.tally }
        ensures keeps { self.new.book ≡ self.old.book }
    {
        check(
            pairs.len() == self.one_too_many(),
            WorkingFault::WrongLength(pairs.len()),
        )?;
        check(self.is_live(link), WorkingFault::NotLive(link))?;
        self.check_list(&[], pairs)?;
        check(self.tally.left != 0, WorkingFault::NothingLeft(link))?;
        check(
            all_pass(self, link, pairs) && share_only(self, Common::Link(link), pairs),
            WorkingFault::RuleFails(link),
        )?;
        self.cut(link);
        Ok(())
    }

    pub(crate) fn disjoint_pairs(&mut self, pairs: &[u16]) -> Result<(), WorkingFault>
        ensures outcome { Outcome (ruled_in (B.meaning self.old.book.now) self.old.tally (disjoint_pairs pairs.now)) self.old.tally result self.new.tally }
        ensures keeps { self.new.book ≡ self.old.book }
    {
        check(
            pairs.len() == self.one_too_many(),
            WorkingFault::WrongLength(pairs.len()),
        )?;
        self.check_list(&[], pairs)?;
        check(
            share_only(self, Common::Nothing, pairs),
            WorkingFault::RuleFails(pairs[0]),
        )?;
        self.tally.end_none();
        Ok(())
    }
}
