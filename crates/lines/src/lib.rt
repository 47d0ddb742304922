// The marker's lines: a line in, a call made, bytes out.
#![tactic(auto)]

mod calls;
mod fault;
mod line_reader;
mod marking;
mod numbers;
mod printing;
mod refusals;
mod scan;

pub use fault::LineFault;
pub use marking::mark;
