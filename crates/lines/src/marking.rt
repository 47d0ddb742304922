// The whole program as one call: the bytes of the plan's file and of the input in, the printed bytes out.
ghost use Rattle.std.specs.Prelude.{◌≡◌, ℕ, ◌++◌, IfOk, string_bytes};
ghost use Rattle.lines.specs.Calls.{line_judged, tally_after};
ghost use Rattle.lines.specs.Lines.{lines_of};
ghost use Rattle.lines.specs.Printed.{line_said, refusal_line, run_said, step_line, Prints};
ghost use Rattle.lines.specs.Said.{said_text};

use crate::calls::run_line;
use crate::line_reader::LineReader;
use crate::printing::Said;
use book::{RoadBook, Sheet};
use plan::{Plan, Refusal};
use std::alloc::{AllocError, Global};
use working::{State, Working};

fn refused<F: Refusal + Copy>(line: usize, fault: F) -> Said
    ensures { said_text result ≡ refusal_line line (F.Refusal.number_of fault) (F.Refusal.place_of fault) }
{
    Said::Refused {
        line,
        number: fault.number(),
        place: fault.place(),
    }
}

// What is left after a step, or that there is no cut.
fn after_step<B: RoadBook>(working: &Working<'_, B>) -> Said
    ensures { said_text result ≡ step_line working.now.tally }
{
    match working.state() {
        State::Open | State::Parted => Said::Left(working.left()),
        State::NoCut => Said::NoCut,
    }
}

// Runs a line and says what took place. The heap and the working go side by side: a struct of both would put a name
// before each clause and take none away.
fn mark_line<B: RoadBook>(
    heap: Global,
    working: &mut Working<'_, B>,
    line: usize,
    bytes: &[u8],
) -> Result<Said, AllocError>
    ensures said { IfOk result (λ s. (said_text s ≡ line_said line (line_judged (B.meaning working.old.book.now) working.old.tally line bytes.now)) × (working.new.tally ≡ tally_after (line_judged (B.meaning working.old.book.now) working.old.tally line bytes.now) working.old.tally)) }
    ensures keeps { working.new.book ≡ working.old.book }
{
    match run_line(heap, working, line, bytes)? {
        Ok(()) => Ok(after_step(working)),
        Err(fault) => Ok(refused(line, fault)),
    }
}

// Runs all lines of the input.
fn mark_lines<B: RoadBook>(
    heap: Global,
    working: &mut Working<'_, B>,
    input: &[u8],
) -> Result<String, AllocError>
    ensures { IfOk result (λ s. string_bytes s ≡ run_said (B.meaning working.old.book.now) working.old.tally 1 (lines_of input.now)) }
{
    let mut out = String::new(heap);
    for (i, bytes) in LineReader::new(input).enumerate() {
        let said = mark_line(heap, working, i + 1, bytes)?;
        write!(out, "{said}")?;
    }
    Ok(out)
}

// Reads the plan, lays a working over its sheet with its budget, and runs the lines of the input. What is printed is
// given back.
pub fn mark(heap: Global, file: &[u8], input: &[u8]) -> Result<String, AllocError>
    ensures { IfOk result (λ s. Prints file.now input.now (string_bytes s)) }
{
    let mut plan = Plan::fresh();
    if let Err(fault) = plan.read(file) {
        return refused(0, fault).to_string(heap);
    }
    let sheet = Sheet::new(&plan);
    let mut working = Working::lay(&sheet, plan.budget());
    mark_lines(heap, &mut working, input)
}
