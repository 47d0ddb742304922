// The promises that are kept by definitions rather than by one call. The contract of each function is the promise;
// there is nothing to run.
ghost use Rattle.plan.specs.Promises.{EachFileIsOne, PackedReadsBack, ReadIsPacked, RoadsSeparate, RoadsTurn, SamplesPack};

// Packing and then reading gives the same plan.
pub fn packed_reads_back()
    ensures { PackedReadsBack }
{}

// Reading and then packing gives the same bytes.
pub fn read_is_packed()
    ensures { ReadIsPacked }
{}

// Every file is one plan, or is refused for one reason.
pub fn each_file_is_one()
    ensures { EachFileIsOne }
{}

// The layout gives the bytes of the plans worked by hand.
pub fn samples_pack()
    ensures { SamplesPack }
{}

// Cutting a link of its road, and nothing less, separates two terms.
pub fn roads_separate()
    ensures { RoadsSeparate }
{}

// Ranks and legs are counted from the lowest common ancestor.
pub fn roads_turn()
    ensures { RoadsTurn }
{}
