// The rough cut of a working's rest.
ghost use Rattle.std.specs.Prelude.{◌≡◌, ◌≤◌, length};
ghost use Rattle.rough.specs.Outcome.{answer, laid, roomy_answer};
ghost use Rattle.rough.specs.Promise.{Promised};
ghost use Rattle.rough.specs.Run.{apart_of, links_of};
ghost use Rattle.working.specs.Rest.{rest};

use crate::working::Working;
use book::RoadBook;
use rough::{RoughFault, rough};

impl<'a, B: RoadBook> Working<'a, B> {
    // The rough cut of the rest, in every state. No mark is made. Slices of 256 places always suffice.
    pub fn rough(&self, links: &mut [u16], apart: &mut [u16]) -> Result<(usize, usize), RoughFault>
        ensures counts { result ≡ answer (rest (B.meaning self.now.book.now) self.now.tally) (length links.old) (length apart.old) }
        ensures cut { links.new ≡ laid result (links_of (rest (B.meaning self.now.book.now) self.now.tally)) links.old }
        ensures pairs { apart.new ≡ laid result (apart_of (rest (B.meaning self.now.book.now) self.now.tally)) apart.old }
        ensures promise { Promised (rest (B.meaning self.now.book.now) self.now.tally) result links.new apart.new }
        ensures room { 256 ≤ length links.old → 256 ≤ length apart.old → result ≡ roomy_answer (rest (B.meaning self.now.book.now) self.now.tally) }
    {
        rough(self, links, apart)
    }
}
