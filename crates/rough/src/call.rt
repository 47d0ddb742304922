// The rough cut of a book.
// An index is widened by `as`: `usize::from` would be longer there, and no plainer.
ghost use Rattle.std.specs.Prelude.{◌≡◌, ◌+◌, ◌≤◌, length};
ghost use Rattle.rough.specs.Arrays.{held};
ghost use Rattle.rough.specs.Outcome.{answer, fitted, laid, roomy_answer};
ghost use Rattle.rough.specs.Promise.{Promised};
ghost use Rattle.rough.specs.Run.{apart_of, links_of, rising};

use crate::fault::RoughFault;
use crate::roads::lowest_empty;
use crate::run::go_through;
use arrayvec::ArrayVec;
use book::RoadBook;

// The chosen links, rising. A loop, since the vector's `extend` answers a `Result` that is never an `Err`.
fn links_in(chosen: &[bool; 256], highest: u16) -> ArrayVec<u16, 256>
    requires { highest ≤ 255 }
    ensures { result.items ≡ rising (held chosen.now) (highest + 1) }
{
    let mut links = ArrayVec::new();
    for link in 0..highest + 1 {
        if chosen[link as usize] {
            links.push(link);
        }
    }
    links
}

// Writes both lists, if each fits its slice, and else nothing.
fn lay(
    cut: &[u16],
    pairs: &[u16],
    links: &mut [u16],
    apart: &mut [u16],
) -> Result<(usize, usize), RoughFault>
    ensures counts { result ≡ fitted cut.now pairs.now (length links.old) (length apart.old) }
    ensures cut { links.new ≡ laid result cut.now links.old }
    ensures pairs { apart.new ≡ laid result pairs.now apart.old }
{
    if links.len() < cut.len() {
        return Err(RoughFault::LinksBuffer(cut.len()));
    }
    if apart.len() < pairs.len() {
        return Err(RoughFault::PairsBuffer(pairs.len()));
    }
    links[..cut.len()].copy_from_slice(cut);
    apart[..pairs.len()].copy_from_slice(pairs);
    Ok((cut.len(), pairs.len()))
}

// Goes through the open pairs by falling rank, equal ranks by rising number. A pair that no chosen link meets is written
// down as apart, and the top links of its legs are chosen. The links lie in the first slice, rising, and the apart pairs
// in the second; the answer is how many. Every cut has at least as many links as there are apart pairs, and the links
// are at most twice as many as those of any cut. Slices of 256 places always suffice.
pub fn rough<B: RoadBook>(
    book: &B,
    links: &mut [u16],
    apart: &mut [u16],
) -> Result<(usize, usize), RoughFault>
    ensures counts { result ≡ answer (B.meaning book.now) (length links.old) (length apart.old) }
    ensures cut { links.new ≡ laid result (links_of (B.meaning book.now)) links.old }
    ensures pairs { apart.new ≡ laid result (apart_of (B.meaning book.now)) apart.old }
    ensures promise { Promised (B.meaning book.now) result links.new apart.new }
    ensures room { 256 ≤ length links.old → 256 ≤ length apart.old → result ≡ roomy_answer (B.meaning book.now) }
{
    if let Some(pair) = lowest_empty(book) {
        return Err(RoughFault::EmptyRoad(pair));
    }
    let (chosen, pairs) = go_through(book);
    let cut = links_in(&chosen, book.highest());
    lay(cut.as_slice(), pairs.as_slice(), links, apart)
}
