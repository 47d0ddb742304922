// Workings: an editor's steps over any road-book, and the rest that they leave.
#![tactic(auto)]

mod checks;
mod fault;
mod laying;
mod lists;
mod marking;
mod refusals;
mod rest;
mod rough_cut;
mod singles;
mod step;
mod steps;
mod tally;
mod working;

pub use fault::WorkingFault;
pub use step::Step;
pub use tally::{LinkMark, State, Tally};
pub use working::Working;
