// Follows broader terms up from a term.
ghost use Rattle.std.specs.Prelude.{◌≡◌};
ghost use Rattle.std.specs.Iterator.{at_most, YieldsFirst};
ghost use Rattle.plan.specs.Plans.{broader_of};
ghost use Rattle.plan.specs.Tree.{links_up};

use crate::shape::Plan;

// The links on the way from a term up to term 0, its own first.
#[derive(Drop)]
pub(crate) struct Climb<'a> {
    plan: &'a Plan,
    at: u16,
}

impl<'a> Climb<'a> {
    pub(crate) fn new(plan: &'a Plan, term: u16) -> Self
        ensures plan { result.plan.now ≡ plan.now }
        ensures term { result.at ≡ term }
    {
        Climb { plan, at: term }
    }
}

impl<'a> Iterator for Climb<'a> {
    type Item = u16;

    ghost next_gives = { YieldsFirst (λ c. links_up (broader_of c.plan.now) c.at) };

    ghost remaining = { λ c. at_most c.at };

    fn next(&mut self) -> Option<u16> {
        let link = self.at;
        if link == 0 {
            return None;
        }
        self.at = self.plan.broader(link);
        Some(link)
    }
}
