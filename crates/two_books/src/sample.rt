// The roads of a sample plan, as each book tells them.
use book::{ClimbingBook, Leg, RoadBook, Sheet};
use plan::Plan;
use std::alloc::{AllocError, Global};
use std::io;

// seven terms; broader terms 0, 0, 1, 1, 2, 2; pairs (3,4), (4,5), (5,6), (1,3); budget 2
const SAMPLE: &[u8] = &[0x03, 0x81, 0x00, 0x80, 0x25, 0x27, 0x25, 0xB8, 0xB0];

fn leg_text<B: RoadBook>(
    heap: Global,
    book: &B,
    pair: u16,
    leg: Leg,
) -> Result<String, AllocError> {
    let mut text = String::new(heap);
    for link in (0..256).filter_map(|place| book.link_at(pair, leg, place)) {
        write!(text, " {link}")?;
    }
    Ok(text)
}

fn tell<B: RoadBook>(rt: &HostRuntime, make: &str, book: &B) -> io::Result<()> {
    for pair in 0..book.pairs() {
        let rank = book.rank(pair);
        let first = leg_text(rt.alloc(), book, pair, Leg::First)?;
        let second = leg_text(rt.alloc(), book, pair, Leg::Second)?;
        println!(rt; "{make} pair {pair}: rank {rank}, first leg{first}, second leg{second}")?;
    }
    Ok(())
}

pub(crate) fn tell_sample(rt: &HostRuntime) -> io::Result<()> {
    let mut plan = Plan::fresh();
    if plan.read(SAMPLE).is_err() {
        return println!(rt; "sample: no plan");
    }
    tell(rt, "climbing", &ClimbingBook::new(&plan))?;
    tell(rt, "sheet", &Sheet::new(&plan))
}
