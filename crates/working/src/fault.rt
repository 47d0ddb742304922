// Why a working refuses a call, each refusal with its place.

#[derive(Clone, Copy, PartialEq, Eq, Debug)]
pub enum WorkingFault {
    // the working has ended
    Ended,
    // a list that is not one longer than what is left; its length
    WrongLength(usize),
    // a link that is not live; the link
    NotLive(u16),
    // a pair that is not open; the pair
    NotOpen(u16),
    // a number that repeats an earlier one from which it must differ; the number
    Repeated(u16),
    // the step would cut, and nothing is left; the link
    NothingLeft(u16),
    // the step's rule does not hold; the step's first number
    RuleFails(u16),
}
