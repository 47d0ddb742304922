// Writes a plan as its packed bytes.
ghost use Rattle.std.specs.Prelude.{◌≡◌, ◌-◌, ◌*◌, ◌≤◌, ◌++◌, length, drop};
ghost use Rattle.plan.specs.Layout.{width_for};
ghost use Rattle.plan.specs.Packed.{end_fields, field_bits, head_fields, packed, term_fields};
ghost use Rattle.plan.specs.Plans.{broader_of, ends_of};
ghost use Rattle.plan.specs.Writes.{Packs, Room, Wrote};
ghost use Rattle.std.specs.List.{flat_map};

use crate::bit_writer::BitWriter;
use crate::fault::BitsFault;
use crate::header::Header;
use crate::shape::Plan;

impl Header {
    // The three numbers, in the order of the file.
    fn write(self, bits: &mut BitWriter)
        requires { Room bits.old 26 }
        ensures { Wrote bits.old bits.new (flat_map field_bits (head_fields self.terms self.pairs self.budget)) }
    {
        bits.field(9, self.terms);
        bits.field(9, self.pairs);
        bits.field(8, u16::from(self.budget));
    }
}

impl Plan {
    // What stands in front of the packed plan.
    fn header(&self) -> Header
        ensures terms { result.terms ≡ self.now.terms }
        ensures pairs { result.pairs ≡ self.now.pairs }
        ensures budget { result.budget ≡ self.now.budget }
    {
        Header {
            terms: self.terms,
            pairs: self.pairs,
            budget: self.budget,
        }
    }

    // The broader terms, from that of term 1 on.
    fn write_broader(&self, bits: &mut BitWriter)
        requires { Room bits.old ((self.now.terms - 1) * width_for self.now.terms) }
        ensures { Wrote bits.old bits.new (flat_map field_bits (term_fields (width_for self.now.terms) (broader_of self.now) (self.now.terms - 1))) }
    {
        let width = self.header().width();
        for t in 1..self.terms {
            bits.field(width, self.broader(t));
        }
    }

    // The two terms of each pair.
    fn write_pairs(&self, bits: &mut BitWriter)
        requires { Room bits.old (self.now.pairs * (2 * width_for self.now.terms)) }
        ensures { Wrote bits.old bits.new (flat_map field_bits (end_fields (width_for self.now.terms) (ends_of self.now) self.now.pairs)) }
    {
        let width = self.header().width();
        for q in 0..self.pairs {
            let (first, second) = self.ends(q);
            bits.field(width, first);
            bits.field(width, second);
        }
    }

    // How many bytes the packed plan takes.
    fn packed_len(&self) -> usize
        ensures { result ≡ length (packed self.now) }
    {
        self.header().bits().div_ceil(8)
    }

    // The packed bytes in front of a buffer that has room for them.
    fn write_packed(&self, out: &mut [u8])
        requires { length (packed self.now) ≤ length out.old }
        ensures { out.new ≡ packed self.now ++ drop (length (packed self.now)) out.old }
    {
        let mut bits = BitWriter { bytes: out, at: 0 };
        self.header().write(&mut bits);
        self.write_broader(&mut bits);
        self.write_pairs(&mut bits);
    }

    // Writes the packed bytes to the front of the buffer and answers how many they are. What stands behind them
    // stays. Into too small a buffer nothing is written.
    pub fn pack(&self, out: &mut [u8]) -> Result<usize, BitsFault>
        ensures { Packs self.now out.old out.new result }
    {
        let needed = self.packed_len();
        if out.len() < needed {
            return Err(BitsFault::BufferTooSmall(needed));
        }
        self.write_packed(out);
        Ok(needed)
    }
}
