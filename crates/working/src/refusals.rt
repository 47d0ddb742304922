// The number and the place that a working's refusal is reported by.
ghost use Rattle.working.specs.Refusals.{working_number, working_place};

use crate::fault::WorkingFault;
use plan::Refusal;

impl Refusal for WorkingFault {
    ghost number_of = { working_number };

    ghost place_of = { working_place };

    fn number(self) -> u8 {
        match self {
            WorkingFault::Ended => 6,
            WorkingFault::WrongLength(_) => 7,
            WorkingFault::NotLive(_) | WorkingFault::NotOpen(_) => 8,
            WorkingFault::Repeated(_) => 9,
            WorkingFault::NothingLeft(_) => 10,
            WorkingFault::RuleFails(_) => 11,
        }
    }

    fn place(self) -> usize {
        match self {
            WorkingFault::Ended => 0,
            WorkingFault::WrongLength(length) => length,
            WorkingFault::NotLive(link) => usize::from(link),
            WorkingFault::NotOpen(pair) => usize::from(pair),
            WorkingFault::Repeated(number) => usize::from(number),
            WorkingFault::NothingLeft(link) => usize::from(link),
            WorkingFault::RuleFails(number) => usize::from(number),
        }
    }
}
