// The number and the place that a fault of the bits or of the plan is reported by.
ghost use Rattle.plan.specs.Refusals.{bits_number, bits_place, plan_number, plan_place};

use crate::fault::{BitsFault, PlanFault};
use crate::refusal::Refusal;

impl Refusal for BitsFault {
    ghost number_of = { bits_number };

    ghost place_of = { bits_place };

    fn number(self) -> u8 {
        match self {
            BitsFault::EndsEarly(_) => 1,
            BitsFault::Surplus(_) => 5,
            BitsFault::BufferTooSmall(_) => 15,
        }
    }

    fn place(self) -> usize {
        match self {
            BitsFault::EndsEarly(bits) => bits,
            BitsFault::Surplus(bit) => bit,
            BitsFault::BufferTooSmall(bytes) => bytes,
        }
    }
}

impl Refusal for PlanFault {
    ghost number_of = { plan_number };

    ghost place_of = { plan_place };

    fn number(self) -> u8 {
        match self {
            PlanFault::Bits(fault) => fault.number(),
            PlanFault::TermCount | PlanFault::PairCount => 2,
            PlanFault::BroaderTerm(_) => 3,
            PlanFault::PairTerms(_) => 4,
        }
    }

    fn place(self) -> usize {
        match self {
            PlanFault::Bits(fault) => fault.place(),
            PlanFault::TermCount => 0,
            PlanFault::PairCount => 9,
            PlanFault::BroaderTerm(term) => usize::from(term),
            PlanFault::PairTerms(pair) => usize::from(pair),
        }
    }
}
