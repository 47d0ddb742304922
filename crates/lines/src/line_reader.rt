// Takes a text apart into lines. No byte is copied.
ghost use Rattle.std.specs.Prelude.{◌≡◌, ◌-◌, ◌≤◌, length};
ghost use Rattle.std.specs.Iterator.{at_most, YieldsFirstRef};
ghost use Rattle.std.specs.List.{position_or_len};
ghost use Rattle.lines.specs.Lines.{is_newline};
ghost use Rattle.lines.specs.Reading.{lines_left};

// How many bytes stand in front of the first newline byte, or in all.
fn line_len(text: &[u8]) -> usize
    ensures first { result ≡ position_or_len is_newline text.now }
    ensures bound { result ≤ length text.now }
{
    text.iter().position(|b| *b == b'\n').unwrap_or(text.len())
}

// A place in the lent text, counted in bytes from 0, where a line begins if it is inside the text.
#[derive(Drop)]
pub(crate) struct LineReader<'a> {
    text: &'a [u8],
    at: usize,
}

impl<'a> LineReader<'a> {
    pub(crate) fn new(text: &'a [u8]) -> Self
        ensures { (result.text.now ≡ text.now) × (result.at ≡ 0) }
    {
        LineReader { text, at: 0 }
    }
}

// The lines, each without its newline byte.
impl<'a> Iterator for LineReader<'a> {
    type Item = &'a [u8];

    ghost next_gives = { YieldsFirstRef lines_left };

    ghost remaining = { λ r. at_most (length r.text.now - r.at) };

    fn next(&mut self) -> Option<&'a [u8]> {
        let text = self.text;
        let start = self.at;
        if start >= text.len() {
            return None;
        }
        let rest = &text[start..];
        let len = line_len(rest);
        self.at = start + len + 1;
        Some(&rest[..len])
    }
}
