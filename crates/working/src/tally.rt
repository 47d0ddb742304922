// What has been done in a working: its marks, its entries, what is left of its budget, and how it stands.

// A link is welded where its two terms are joined for good, and cut where they are parted.
#[derive(Clone, Copy, PartialEq, Eq, Debug)]
pub enum LinkMark {
    Unmarked,
    Welded,
    Cut,
}

// A working is open, or has ended: with no cut within its budget, or with all pairs parted.
#[derive(Clone, Copy, PartialEq, Eq, Debug)]
pub enum State {
    Open,
    NoCut,
    Parted,
}

#[derive(Clone, Copy)]
pub struct Tally {
    // the mark of each link
    pub links: [LinkMark; 256],
    // whether each pair has been dropped: it need not be separated any more
    pub dropped: [bool; 256],
    // the entry number of each link that has one; the project keeps entries apart from marks
    pub entries: [Option<u16>; 256],
    // how many links may still be cut
    pub left: u8,
    pub state: State,
}
