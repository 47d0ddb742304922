// Every question of a road-book, asked of two books or timed.
ghost use Rattle.std.specs.Prelude.{◌≤◌};

use crate::timing::timed;
use book::{Leg, RoadBook};
use std::io;

// How many of the numbers below 260, the last of them beyond any plan, pass a test.
fn count<F: Fn(u16) -> bool>(test: F) -> usize
    requires { F.IsAlwaysCallable test }
    ensures { result ≤ 260 }
{
    (0..260).filter(|n| test(*n)).count()
}

fn legs_differ<L: RoadBook, R: RoadBook>(a: &L, b: &R, pair: u16, leg: Leg) -> usize
    ensures { result ≤ 260 }
{
    count(|place| a.link_at(pair, leg, place) != b.link_at(pair, leg, place))
}

fn pairs_differ<L: RoadBook, R: RoadBook>(a: &L, b: &R, pair: u16) -> usize
    ensures { result ≤ 1000 }
{
    usize::from(a.is_open(pair) != b.is_open(pair))
        + usize::from(a.rank(pair) != b.rank(pair))
        + count(|link| a.on_road(link, pair) != b.on_road(link, pair))
        + legs_differ(a, b, pair, Leg::First)
        + legs_differ(a, b, pair, Leg::Second)
}

// On how many questions two books differ.
pub(crate) fn disagreements<L: RoadBook, R: RoadBook>(a: &L, b: &R) -> usize {
    let others = usize::from(a.highest() != b.highest())
        + usize::from(a.pairs() != b.pairs())
        + count(|link| a.is_live(link) != b.is_live(link));
    (0..260)
        .map(|pair| pairs_differ(a, b, pair))
        .fold(others, usize::saturating_add)
}

// 65,536 questions of each kind.
fn ask_roads<B: RoadBook>(book: &B) -> usize {
    (0..=u16::MAX)
        .filter(|n| book.on_road(*n % 256, *n / 256))
        .count()
}

fn ask_legs<B: RoadBook>(book: &B) -> usize {
    (0..=u16::MAX)
        .filter(|n| book.link_at(*n / 256, Leg::First, *n % 256).is_some())
        .count()
}

fn ask_ranks<B: RoadBook>(book: &B) -> u32 {
    (0..=u16::MAX)
        .map(|n| u32::from(book.rank(n % 256)))
        .fold(0, u32::saturating_add)
}

// The microseconds that 65,536 questions of each kind take, on standard error.
pub(crate) fn time_questions<B: RoadBook>(
    rt: &HostRuntime,
    name: &str,
    make: &str,
    book: &B,
) -> io::Result<()> {
    let (roads, on_road) = timed(rt, || ask_roads(book))?;
    let (links, link_at) = timed(rt, || ask_legs(book))?;
    let (depth, rank) = timed(rt, || ask_ranks(book))?;
    eprintln!(rt;
        "{name} {make}: on_road {on_road} us, link_at {link_at} us, rank {rank} us ({roads} {links} {depth})"
    )
}
