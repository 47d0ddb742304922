// The first of listed pairs that is at fault.
ghost use Rattle.plan.specs.Tree.{among};
ghost use Rattle.rules.specs.Faulty.{first_closed, first_repeat};
ghost use Rattle.std.specs.Prelude.{◌≡◌};

use book::RoadBook;

// The first listed pair that is not open.
pub fn first_closed<B: RoadBook>(book: &B, pairs: &[u16]) -> Option<u16>
    ensures { result ≡ first_closed (B.meaning book.now).opened pairs.now }
{
    pairs.iter().copied().find(|pair| !book.is_open(*pair))
}

// Whether a number is among others.
pub fn is_among(number: u16, others: &[u16]) -> bool
    ensures { result ≡ among number others.now }
{
    others.contains(&number)
}

// The first listed pair that repeats one of those in front or one listed before it. The project fixes this loop with
// the index.
pub fn first_repeat(front: &[u16], pairs: &[u16]) -> Option<u16>
    ensures { result ≡ first_repeat front.now pairs.now }
{
    for (i, pair) in pairs.iter().enumerate() {
        if is_among(*pair, front) {
            return Some(*pair);
        }
        if is_among(*pair, &pairs[..i]) {
            return Some(*pair);
        }
    }
    None
}
