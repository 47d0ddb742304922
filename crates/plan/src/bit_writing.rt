// Writes numbers into lent bytes, bit by bit, the most significant bit of each byte first.
ghost use Rattle.std.specs.Prelude.{◌<◌, ◌≤◌, [], ◌∷◌};
ghost use Rattle.plan.specs.Packed.{number_bits};
ghost use Rattle.plan.specs.Writes.{Room, Wrote};

use crate::bit_writer::BitWriter;

impl<'a> BitWriter<'a> {
    // The bit is a number, 0 or 1, as the layout has it.
    fn bit(&mut self, bit: u8)
        requires one { bit < 2 }
        requires room { Room self.old 1 }
        ensures { Wrote self.old self.new (bit ∷ []) }
    {
        let i = self.at / 8;
        let before = if self.at % 8 == 0 { 0 } else { self.bytes[i] };
        self.bytes[i] = before | (bit << (7 - self.at % 8));
        self.at += 1;
    }

    // The number in the next `width` bits, which are then behind the place.
    pub(crate) fn field(&mut self, width: usize, value: u16)
        requires narrow { width ≤ 16 }
        requires room { Room self.old width }
        ensures { Wrote self.old self.new (number_bits width value) }
    {
        for place in (0..width).rev() {
            let bit = (value >> place) % 2;
            self.bit(bit as u8);
        }
    }
}
