// Which of the pairs that are left comes first.
// An index is widened by `as`: `usize::from` would be longer there, and no plainer.
ghost use Rattle.std.specs.Prelude.{◌≡◌, ℕ, ◌<◌, ◌≤◌, length, Some};
ghost use Rattle.book.specs.Meaning.{rank_at};
ghost use Rattle.rough.specs.Arrays.{held, numbered};
ghost use Rattle.rough.specs.Order.{earlier, first_of, nearer};

use book::RoadBook;
use std::array;
use std::cmp::Reverse;

// The rank of each pair, asked once. One function for this and the next would take a closure and save nothing.
pub(crate) fn ranks_of<B: RoadBook>(book: &B) -> [u16; 256]
    ensures { (p : ℕ) → numbered result p ≡ rank_at (B.meaning book.now) p }
{
    array::from_fn(|pair| book.rank(pair as u16))
}

// The pairs to go through.
pub(crate) fn open_pairs<B: RoadBook>(book: &B) -> [bool; 256]
    ensures long { length result ≡ 256 }
    ensures opened { (p : ℕ) → held result p ≡ (B.meaning book.now).opened p }
{
    array::from_fn(|pair| book.is_open(pair as u16))
}

// The first in the order among the pairs left. Of equal ranks the first is kept, which has the lowest number.
pub(crate) fn first_left(ranks: &[u16; 256], left: &[bool; 256], pairs: u16) -> Option<u16>
    requires { pairs ≤ 256 }
    ensures { result ≡ first_of (earlier (numbered ranks.now)) (held left.now) pairs }
{
    (0..pairs)
        .filter(|pair| left[*pair as usize])
        .min_by_key(|pair| Reverse(ranks[*pair as usize]))
}
