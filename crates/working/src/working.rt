// A working, and its laying.
ghost use Rattle.std.specs.Prelude.{◌≡◌, ◌<◌};
ghost use Rattle.working.specs.Rest.{unmarked};

use crate::tally::{LinkMark, State, Tally};
use book::RoadBook;

#[derive(Drop)]
pub struct Working<'a, B: RoadBook> {
    pub(crate) book: &'a B,
    pub(crate) tally: Tally,
}

impl<'a, B: RoadBook> Working<'a, B> {
    pub(crate) fn is_unmarked(&self, link: u16) -> bool
        ensures { result ≡ unmarked self.now.tally link }
    {
        let links = &self.tally.links;
        links
            .get(usize::from(link))
            .copied()
            .unwrap_or(LinkMark::Unmarked)
            == LinkMark::Unmarked
    }
}
