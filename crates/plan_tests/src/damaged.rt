// Damaged files, each with its refusal. The nine bytes of the sample plan are 03 81 00 80 25 27 25 B8 B0.
use plan::{Plan, Refusal};

// what is wrong with a file, its bytes, and the number and the place of its refusal
const CASES: &[(&str, &[u8], u8, usize)] = &[
    ("no byte", &[], 1, 0),
    ("no whole header", &[0x03, 0x81, 0x00], 1, 24),
    ("no term", &[0x00, 0x00, 0x00, 0x00], 2, 0),
    ("257 terms", &[0x80, 0x80, 0x00, 0x00], 2, 0),
    ("257 pairs", &[0x00, 0xC0, 0x40, 0x00], 2, 9),
    (
        "no last byte",
        &[0x03, 0x81, 0x00, 0x80, 0x25, 0x27, 0x25, 0xB8],
        1,
        64,
    ),
    (
        "term 1 above itself",
        &[0x03, 0x81, 0x00, 0x88, 0x25, 0x27, 0x25, 0xB8, 0xB0],
        3,
        1,
    ),
    (
        "a pair of 3 and 3",
        &[0x03, 0x81, 0x00, 0x80, 0x25, 0x26, 0xE5, 0xB8, 0xB0],
        4,
        0,
    ),
    (
        "a pair of 3 and 7",
        &[0x03, 0x81, 0x00, 0x80, 0x25, 0x27, 0xE5, 0xB8, 0xB0],
        4,
        0,
    ),
    (
        "two filling bits",
        &[0x03, 0x81, 0x00, 0x80, 0x25, 0x27, 0x25, 0xB8, 0xB9],
        5,
        68,
    ),
    (
        "the last filling bit",
        &[0x03, 0x81, 0x00, 0x80, 0x25, 0x27, 0x25, 0xB8, 0xB1],
        5,
        71,
    ),
    (
        "a further byte",
        &[0x03, 0x81, 0x00, 0x80, 0x25, 0x27, 0x25, 0xB8, 0xB0, 0x00],
        5,
        72,
    ),
    ("one term, a filling bit", &[0x00, 0x80, 0x00, 0x01], 5, 31),
];

#[test]
fn damaged_files_are_refused(rt: HostRuntime) {
    for (damage, bytes, number, place) in CASES {
        let read = Plan::fresh().read(bytes);
        let refusal = read.map_err(|fault| (fault.number(), fault.place()));
        assert_eq!(rt; refusal, Err((*number, *place)), "{damage}");
    }
}
