// Tells the roads of a small plan by both books, to be compared with what was worked out by hand; then asks the climbing
// book and the sheet every question on some plans, and for a rough cut, and says whether they agree; the time that this
// takes goes to standard error.
#![tactic(auto)]

mod bytes;
mod questions;
mod rough_cuts;
mod sample;
mod timing;

use book::{ClimbingBook, Sheet};
use bytes::packed;
use plan::Plan;
use questions::{disagreements, time_questions};
use rough_cuts::{compare_rough, time_rough};
use sample::tell_sample;
use std::io;

// Compares and times the two books of a plan whose broader terms a function gives.
fn compare<F: Fn(u16) -> u16>(rt: &HostRuntime, name: &str, broader: F) -> io::Result<()>
    requires { F.IsAlwaysCallable broader }
{
    let mut plan = Plan::fresh();
    let file = packed(rt.alloc(), broader)?;
    if plan.read(file.as_slice()).is_err() {
        return println!(rt; "{name}: no plan");
    }
    let climbing = ClimbingBook::new(&plan);
    let sheet = Sheet::new(&plan);
    let differ = disagreements(&climbing, &sheet);
    println!(rt; "{name}: {differ} answers differ")?;
    compare_rough(rt, name, &climbing, &sheet)?;
    time_questions(rt, name, "climbing", &climbing)?;
    time_questions(rt, name, "sheet", &sheet)?;
    time_rough(rt, name, "climbing", &climbing)?;
    time_rough(rt, name, "sheet", &sheet)
}

fn main(rt: HostRuntime) -> io::Result<()> {
    tell_sample(&rt)?;
    compare(&rt, "path", |term| term.saturating_sub(1))?;
    compare(&rt, "star", |_| 0)?;
    compare(&rt, "caterpillar", |term| term.saturating_sub(1) / 2 * 2)?;
    compare(&rt, "binary", |term| term.saturating_sub(1) / 2)
}
