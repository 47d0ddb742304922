// The number and the place that a line's refusal is reported by.
ghost use Rattle.lines.specs.Calls.{line_number, line_place};

use crate::fault::LineFault;
use plan::Refusal;

impl Refusal for LineFault {
    ghost number_of = { line_number };

    ghost place_of = { line_place };

    fn number(self) -> u8 {
        match self {
            LineFault::NotALine(_) => 16,
            LineFault::Working(fault) => fault.number(),
        }
    }

    fn place(self) -> usize {
        match self {
            LineFault::NotALine(line) => line,
            LineFault::Working(fault) => fault.place(),
        }
    }
}
