// Lays a working, and tells how it stands.
ghost use Rattle.working.specs.Marking.{fresh};
ghost use Rattle.std.specs.Prelude.{◌≡◌};

use crate::tally::{LinkMark, State, Tally};
use crate::working::Working;
use book::RoadBook;

impl<'a, B: RoadBook> Working<'a, B> {
    // A working over a book: nothing is marked or entered, and all of the budget is left.
    pub fn lay(book: &'a B, budget: u8) -> Self
        ensures tallies { result.tally ≡ fresh budget }
        ensures keeps { result.book.now ≡ book.now }
    {
        Working {
            book,
            tally: Tally {
                links: [LinkMark::Unmarked; 256],
                dropped: [false; 256],
                entries: [None; 256],
                left: budget,
                state: State::Open,
            },
        }
    }

    // How many links may still be cut.
    pub fn left(&self) -> u8
        ensures { result ≡ self.now.tally.left }
    {
        self.tally.left
    }

    // Whether the working is open, or how it ended.
    pub fn state(&self) -> State
        ensures { result ≡ self.now.tally.state }
    {
        self.tally.state
    }
}
