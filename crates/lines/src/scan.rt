// How far the reading of a line's numbers has come.

// What stands in front of the next byte: the letter or a number that has ended, a blank, or the digits of a number.
#[derive(Clone, Copy)]
pub(crate) enum Scan {
    Between,
    AfterBlank,
    Inside(u16),
}

// What a byte does: it breaks the rule, it goes on, or it ends a number. As `Option<(Option<u16>, Scan)>` the three would
// have no names.
#[derive(Clone, Copy)]
pub(crate) enum Turn {
    Breaks,
    GoesOn(Scan),
    Ends(u16, Scan),
}
