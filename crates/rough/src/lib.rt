// The rough cut: a cut of any road-book with at most twice the fewest links, and the pairs that show it.
#![tactic(auto)]

mod call;
mod fault;
mod order;
mod refusals;
mod roads;
mod run;
mod sample;

pub use call::rough;
pub use fault::RoughFault;
pub use sample::sample_counts;
