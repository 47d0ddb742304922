// What a sheet holds.
ghost use Rattle.book.specs.Sheets.{Filled, Ranked, first_test, road_test};

use plan::Plan;

// A book that is filled once from a plan, and then answers every question from its tables, without climbing. The
// project fixes the tables' form.
#[derive(Clone, Copy)]
pub struct Sheet {
    pub(crate) plan: Plan,
    // one bit for each pair and link: the link is on the pair's road
    pub(crate) roads: [u64; 1024],
    // one bit for each pair and link: the link is on the pair's first leg
    pub(crate) firsts: [u64; 1024],
    // the rank of each pair
    pub(crate) ranks: [u8; 256],
    ghost filled: { Filled (road_test plan) roads },
    ghost sided: { Filled (first_test plan) firsts },
    ghost ranked: { Ranked plan ranks },
}
