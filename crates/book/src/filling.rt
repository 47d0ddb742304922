// Fills the tables of a sheet, by asking the climbing book.
ghost use Rattle.std.specs.Prelude.{◌≡◌, ℕ, ◌<◌, Bool};
ghost use Rattle.book.specs.Sheets.{word_of, Computes, Filled, Ranked};

use crate::climbing::ClimbingBook;
use crate::road_book::RoadBook;
use std::array;

// A word of a table: four words to a pair, 64 links to a word, the lowest link in the lowest bit.
fn word<F: Fn(u16, u16) -> bool>(test: &F, k: u16) -> u64
    requires room { k < 1024 }
    requires asked { F.IsAlwaysCallable test.now }
    ensures { (f : ℕ → ℕ → Bool) → Computes (F.post test.now) f → result ≡ word_of f k }
{
    let mut word = 0;
    for link in (0..64).rev() {
        word = word * 2 + u64::from(test(k / 4, k % 4 * 64 + link));
    }
    word
}

// The table that has a bit for each pair and link that pass a test.
pub(crate) fn fill<F: Fn(u16, u16) -> bool>(test: F) -> [u64; 1024]
    requires { F.IsAlwaysCallable test }
    ensures { (f : ℕ → ℕ → Bool) → Computes (F.post test) f → Filled f result }
{
    array::from_fn(|k| word(&test, k as u16))
}

// The ranks of the pairs, in bytes, and 0 behind the last of them. One function for this and other such arrays would take a
// closure and save nothing.
pub(crate) fn fill_ranks(book: &ClimbingBook) -> [u8; 256]
    ensures { Ranked book.now.plan.now result }
{
    array::from_fn(|pair| book.rank(pair as u16) as u8)
}
