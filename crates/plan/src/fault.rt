// Why a file is no plan: the faults of the bits and of the plan, each with its place.

// The bits of a file do not fit what is to be read from them, or the bytes do not fit where they are to go.
#[derive(Clone, Copy, PartialEq, Eq, Debug)]
pub enum BitsFault {
    // the file ends early; its length in bits
    EndsEarly(usize),
    // a filling bit that is set, or a further byte; the first such bit
    Surplus(usize),
    // too small a buffer for the packed bytes; how many they are
    BufferTooSmall(usize),
}

// The fields of a file are no plan, or its bits are at fault.
#[derive(Clone, Copy, PartialEq, Eq, Debug)]
pub enum PlanFault {
    Bits(BitsFault),
    // no term, or over 256
    TermCount,
    // over 256 pairs
    PairCount,
    // a broader term that is not smaller than its term; the term
    BroaderTerm(u16),
    // a first term that is not smaller than the second, or a second that is no term; the pair
    PairTerms(u16),
}
