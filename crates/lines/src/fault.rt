// Why a line is refused.
use working::WorkingFault;

#[derive(Clone, Copy, PartialEq, Eq, Debug)]
pub enum LineFault {
    // not a line of the program; the line's number
    NotALine(usize),
    // the working refuses the call; its own fault, whole
    Working(WorkingFault),
}
