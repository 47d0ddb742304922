// The number and the place that a refusal of the rough cut is reported by.
ghost use Rattle.rough.specs.Refusals.{rough_number, rough_place};

use crate::fault::RoughFault;
use plan::Refusal;

impl Refusal for RoughFault {
    ghost number_of = { rough_number };

    ghost place_of = { rough_place };

    fn number(self) -> u8 {
        match self {
            RoughFault::EmptyRoad(_) => 11,
            RoughFault::LinksBuffer(_) | RoughFault::PairsBuffer(_) => 15,
        }
    }

    fn place(self) -> usize {
        match self {
            RoughFault::EmptyRoad(pair) => usize::from(pair),
            RoughFault::LinksBuffer(needed) => needed,
            RoughFault::PairsBuffer(needed) => needed,
        }
    }
}
