// The rough cuts of two books, compared and timed.
use crate::timing::timed;
use book::RoadBook;
use rough::rough;
use std::io;

const CALLS: u32 = 1000;

// Says so where the two books give other links or other apart pairs. How many there are goes to standard error.
pub(crate) fn compare_rough<L: RoadBook, R: RoadBook>(
    rt: &HostRuntime,
    name: &str,
    a: &L,
    b: &R,
) -> io::Result<()> {
    let mut links = [0; 256];
    let mut apart = [0; 256];
    let mut other_links = [0; 256];
    let mut other_apart = [0; 256];
    let first = rough(a, &mut links, &mut apart);
    let second = rough(b, &mut other_links, &mut other_apart);
    if first != second || links != other_links || apart != other_apart {
        println!(rt; "{name}: the rough cuts differ")?;
    }
    match first {
        Ok((cut, pairs)) => {
            eprintln!(rt; "{name}: rough cut of {cut} links, {pairs} pairs apart")
        }
        Err(_) => eprintln!(rt; "{name}: no rough cut"),
    }
}

fn count_rough<B: RoadBook>(book: &B) -> usize {
    let mut links = [0; 256];
    let mut apart = [0; 256];
    rough(book, &mut links, &mut apart).map_or(0, |(cut, pairs)| cut.saturating_add(pairs))
}

fn ask_rough<B: RoadBook>(book: &B) -> usize {
    (0..CALLS)
        .map(|_| count_rough(book))
        .fold(0, usize::saturating_add)
}

// The microseconds that the calls take, on standard error.
pub(crate) fn time_rough<B: RoadBook>(
    rt: &HostRuntime,
    name: &str,
    make: &str,
    book: &B,
) -> io::Result<()> {
    let (sum, time) = timed(rt, || ask_rough(book))?;
    eprintln!(rt; "{name} {make}: {CALLS} rough cuts {time} us ({sum})")
}
