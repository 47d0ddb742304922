// The rough cut of the sample plan, proved by computing it.
ghost use Rattle.rough.specs.Sample.{SampleFits, SampleIsCut};

// The links are 3, 4, 5 and 6, and the pairs 0 and 2 are apart.
#[tactic(auto, using(crate::proofs::Drawn::sample_cut))]
fn sample_computes()
    ensures { SampleIsCut }
{}

// How many places the two slices need for the sample plan.
pub fn sample_counts() -> (usize, usize)
    ensures computed { SampleIsCut }
    ensures counts { SampleFits result }
{
    sample_computes();
    (4, 2)
}
