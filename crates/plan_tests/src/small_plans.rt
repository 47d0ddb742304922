// All plans of up to four terms and two pairs: each is read from bytes made by hand and packed as the same bytes.
use plan::Plan;
use std::process::Abort;

// terms, pairs, the width of their fields together, and how many plans there are
const COUNTS: &[(u64, u64, usize, usize)] = &[
    (1, 0, 0, 1),
    (1, 1, 0, 0),
    (2, 0, 1, 1),
    (2, 1, 3, 1),
    (2, 2, 5, 1),
    (3, 0, 4, 2),
    (3, 1, 8, 6),
    (3, 2, 12, 18),
    (4, 0, 6, 6),
    (4, 1, 10, 36),
    (4, 2, 14, 216),
];

// A file of 26 to 40 bits, which stand at the low end of a number; zero bits fill its last byte. Whether it is a plan.
fn packs_alike(rt: &impl Abort, file: u64, bits: usize) -> bool {
    assert!(rt; 26 <= bits && bits <= 40);
    let len = bits.div_ceil(8);
    let bytes = (file << (64 - bits)).to_be_bytes();
    let mut plan = Plan::fresh();
    if plan.read(&bytes[0..len]).is_err() {
        return false;
    }
    let mut out = [0xAA; 8];
    assert_eq!(rt; plan.pack(&mut out), Ok(len));
    assert!(rt; out[0..len] == bytes[0..len]);
    assert!(rt; out[7] == 0xAA);
    true
}

// Tries whatever may stand in `width` bits of fields behind a header with budget 5, and counts the plans.
fn plans(rt: &impl Abort, terms: u64, pairs: u64, width: usize) -> usize {
    assert!(rt; width <= 14);
    let header = (terms << 17) | (pairs << 8) | 5;
    (0..1u64 << width)
        .filter(|fields| packs_alike(rt, (header << width) | fields, 26 + width))
        .count()
}

// There are 1, 1, 2 and 6 trees of one to four terms, and 0, 1, 3 and 6 pairs of terms to choose from each time.
#[test]
fn small_plans_are_read_back(rt: HostRuntime) {
    for (terms, pairs, width, count) in COUNTS {
        assert_eq!(rt;
            plans(&rt, *terms, *pairs, *width),
            *count,
            "{terms} terms, {pairs} pairs"
        );
    }
}
