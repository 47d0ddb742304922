// Plans: a tree of terms, the pairs of terms to separate, and a budget; read from packed files and packed again.
#![tactic(auto)]

mod bit_writer;
mod bit_writing;
mod bits;
mod climb;
mod fault;
mod fresh;
mod header;
mod packing;
mod promises;
mod reading;
mod refusal;
mod refusals;
mod shape;
mod tree;

pub use fault::{BitsFault, PlanFault};
pub use promises::{
    each_file_is_one, packed_reads_back, read_is_packed, roads_separate, roads_turn, samples_pack,
};
pub use refusal::Refusal;
pub use shape::Plan;
