// Makes the call that a line asks for.
ghost use Rattle.std.specs.Prelude.{◌≡◌, ℕ, IfOk};
ghost use Rattle.lines.specs.Calls.{call_judged, line_judged, step_by, LineJudgement, LineOutcome};
ghost use Rattle.lines.specs.declared.fault.LineFault.TheVariants.{Working as Held};
ghost use Rattle.std.specs.Option.{option_map};
ghost use Rattle.working.specs.Judging.{rule_of};

use crate::fault::LineFault;
use crate::numbers::read_numbers;
use book::RoadBook;
use std::alloc::{AllocError, Global};
use working::{Step, Working, WorkingFault};

// Written out, since proofs of `?` read `from_gives`.
impl From<WorkingFault> for LineFault {
    ghost from_gives = { λ e r. r ≡ Held e };

    fn from(e: WorkingFault) -> LineFault {
        LineFault::Working(e)
    }
}

// The step that a letter and its numbers ask for. The project fixes this match on the letter as a character.
fn step_by<'a>(letter: u8, numbers: &'a [u16]) -> Option<Step<'a>>
    ensures { option_map rule_of result ≡ step_by letter numbers.now }
{
    match (letter as char, numbers) {
        ('i', [link]) => Some(Step::IdleLink(*link)),
        ('e', [link, by]) => Some(Step::DominatedLink(*link, *by)),
        ('u', [link, pair]) => Some(Step::UnitRoad(*link, *pair)),
        ('p', [inner, outer]) => Some(Step::DominatedPair(*inner, *outer)),
        ('f', [pair, pairs @ ..]) => Some(Step::CommonFactor(*pair, pairs)),
        ('o', [link, pairs @ ..]) => Some(Step::OverloadedLink(*link, pairs)),
        ('n', pairs) => Some(Step::DisjointPairs(pairs)),
        _ => None,
    }
}

fn call<B: RoadBook>(
    working: &mut Working<'_, B>,
    line: usize,
    letter: u8,
    numbers: &[u16],
) -> Result<(), LineFault>
    ensures outcome { LineOutcome (call_judged (B.meaning working.old.book.now) working.old.tally line (step_by letter numbers.now)) working.old.tally result working.new.tally }
    ensures keeps { working.new.book ≡ working.old.book }
{
    let step = step_by(letter, numbers).ok_or(LineFault::NotALine(line))?;
    Ok(working.step(step)?)
}

// Runs a line. The inner result is the line's own: a refused line changes nothing, and want of memory ends the program.
pub(crate) fn run_line<B: RoadBook>(
    heap: Global,
    working: &mut Working<'_, B>,
    line: usize,
    bytes: &[u8],
) -> Result<Result<(), LineFault>, AllocError>
    ensures outcome { IfOk result (λ s. LineOutcome (line_judged (B.meaning working.old.book.now) working.old.tally line bytes.now) working.old.tally s working.new.tally) }
    ensures keeps { working.new.book ≡ working.old.book }
{
    let [letter, rest @ ..] = bytes else {
        return Ok(Err(LineFault::NotALine(line)));
    };
    let Some(numbers) = read_numbers(heap, rest)? else {
        return Ok(Err(LineFault::NotALine(line)));
    };
    Ok(call(working, line, *letter, numbers.as_slice()))
}
