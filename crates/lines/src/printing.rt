// What the program prints for a line.
ghost use Rattle.lines.specs.Said.{said_text};
ghost use Rattle.std.specs.Prelude.{Some};

use std::fmt;

// `no`, the number of the line, the refusal and its place; or what is left; or that there is no cut.
#[derive(Clone, Copy)]
pub(crate) enum Said {
    Refused {
        line: usize,
        number: u8,
        place: usize,
    },
    Left(u8),
    NoCut,
}

impl fmt::Display for Said {
    ghost output = { λ s. Some (said_text s) };

    fn fmt<W: fmt::Write>(&self, f: &mut fmt::Formatter<W>) -> fmt::Result {
        match self {
            Said::Refused {
                line,
                number,
                place,
            } => write!(f, "no {line} {number} {place}\n"),
            Said::Left(left) => write!(f, "left {left}\n"),
            Said::NoCut => write!(f, "none\n"),
        }
    }
}
