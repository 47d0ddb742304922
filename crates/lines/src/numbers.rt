// Reads the numbers of a line.
ghost use Rattle.lines.specs.Numbers.{advanced, at_end, behind, few, numbers_in};
ghost use Rattle.std.specs.Prelude.{◌≡◌, IfOk, vec_items};
ghost use Rattle.std.specs.Option.{option_map};

use crate::scan::{Scan, Turn};
use std::alloc::{AllocError, Global};

fn advance(scan: Scan, byte: u8) -> Turn
    ensures { result ≡ advanced scan byte }
{
    match (scan, byte) {
        (Scan::Between, b' ') => Turn::GoesOn(Scan::AfterBlank),
        (Scan::AfterBlank, b'0') => Turn::Ends(0, Scan::Between),
        (Scan::AfterBlank, b'1'..=b'9') => Turn::GoesOn(Scan::Inside(u16::from(byte - b'0'))),
        (Scan::Inside(n), b'0'..=b'9') => {
            let more = u32::from(n) * 10 + u32::from(byte - b'0');
            match u16::try_from(more) {
                Ok(more) => Turn::GoesOn(Scan::Inside(more)),
                Err(_) => Turn::Breaks,
            }
        }
        (Scan::Inside(n), b' ') => Turn::Ends(n, Scan::AfterBlank),
        _ => Turn::Breaks,
    }
}

// The numbers that have been read where the line ends.
fn at_end(mut numbers: Vec<u16>, scan: Scan) -> Result<Option<Vec<u16>>, AllocError>
    ensures { IfOk result (λ o. option_map vec_items o ≡ few (behind numbers.items (at_end scan))) }
{
    match scan {
        Scan::Between => {}
        Scan::AfterBlank => return Ok(None),
        Scan::Inside(n) => numbers.push(n)?,
    }
    if numbers.len() > 257 {
        return Ok(None);
    }
    Ok(Some(numbers))
}

// The numbers behind the letter of a line, or nothing where the line is none of the program's.
pub(crate) fn read_numbers(heap: Global, bytes: &[u8]) -> Result<Option<Vec<u16>>, AllocError>
    ensures { IfOk result (λ o. option_map vec_items o ≡ numbers_in bytes.now) }
{
    let mut numbers = Vec::new(heap);
    let mut scan = Scan::Between;
    for b in bytes {
        match advance(scan, *b) {
            Turn::Breaks => return Ok(None),
            Turn::GoesOn(next) => scan = next,
            Turn::Ends(n, next) => {
                numbers.push(n)?;
                scan = next;
            }
        }
    }
    at_end(numbers, scan)
}
