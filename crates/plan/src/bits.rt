// Reads numbers from lent bytes, bit by bit, the most significant bit of each byte first.
ghost use Rattle.std.specs.Prelude.{◌≡◌, ℕ, ◌+◌, ◌*◌, ◌^◌, ◌<◌, ◌≤◌, length, MatchOption, MatchResult};
ghost use Rattle.plan.specs.Bits.{bit_at, field_at, Filled, Surplus, Zeros};

use crate::fault::BitsFault;

// A place in the lent bytes, counted in bits from 0. No byte is copied.
#[derive(Drop)]
pub(crate) struct BitReader<'a> {
    bytes: &'a [u8],
    at: usize,
}

impl<'a> BitReader<'a> {
    pub(crate) fn new(bytes: &'a [u8]) -> Self
        ensures { (result.bytes.now ≡ bytes.now) × (result.at ≡ 0) }
    {
        BitReader { bytes, at: 0 }
    }

    // A number, 0 or 1: the layout adds and multiplies bits.
    fn bit(&self, i: usize) -> u16
        requires { i < 8 * length self.now.bytes.now }
        ensures { result ≡ bit_at self.now.bytes.now i }
    {
        (u16::from(self.bytes[i / 8]) >> (7 - i % 8)) % 2
    }

    // Whether the bytes hold `end` bits.
    pub(crate) fn reach(&self, end: usize) -> Result<(), BitsFault>
        requires { end < 2 ^ 33 }
        ensures { MatchResult result (λ _. end ≤ 8 * length self.now.bytes.now) (λ e. (e ≡ BitsFault.EndsEarly (8 * length self.now.bytes.now)) × (8 * length self.now.bytes.now < end)) }
    {
        if end.div_ceil(8) > self.bytes.len() {
            return Err(BitsFault::EndsEarly(8 * self.bytes.len()));
        }
        Ok(())
    }

    // The number in the next `width` bits, which are then behind the place. The bytes are the same on a refusal too,
    // where no place is promised.
    pub(crate) fn field(&mut self, width: usize) -> Result<u16, BitsFault>
        requires narrow { width ≤ 16 }
        requires early { self.old.at < 2 ^ 32 }
        ensures value { MatchResult result (λ v. (v ≡ field_at self.old.bytes.now self.old.at width) × (self.new.at ≡ self.old.at + width) × (self.new.at ≤ 8 * length self.old.bytes.now)) (λ e. (e ≡ BitsFault.EndsEarly (8 * length self.old.bytes.now)) × (8 * length self.old.bytes.now < self.old.at + width)) }
        ensures same { self.new.bytes ≡ self.old.bytes }
    {
        let end = self.at + width;
        self.reach(end)?;
        let value = (self.at..end).fold(0, |value, i| (value << 1) | self.bit(i));
        self.at = end;
        Ok(value)
    }

    // The first bit that is set, from the place up to `end`.
    fn first_set(&self, end: usize) -> Option<usize>
        requires { end ≤ 8 * length self.now.bytes.now }
        ensures { MatchOption result (Zeros self.now.bytes.now self.now.at end) (λ i. (self.now.at ≤ i) × (i < end) × (bit_at self.now.bytes.now i ≡ 1) × Zeros self.now.bytes.now self.now.at i) }
    {
        (self.at..end).find(|i| self.bit(*i) != 0)
    }

    // Nothing but zero bits up to the next whole byte, and no byte behind it.
    pub(crate) fn finish(&self) -> Result<(), BitsFault>
        requires early { self.now.at < 2 ^ 32 }
        requires within { self.now.at ≤ 8 * length self.now.bytes.now }
        ensures { MatchResult result (λ _. Filled self.now.bytes.now self.now.at) (λ e. (i : ℕ) × (e ≡ BitsFault.Surplus i) × Surplus self.now.bytes.now self.now.at i) }
    {
        let end = self.at.next_multiple_of(8);
        if let Some(i) = self.first_set(end) {
            return Err(BitsFault::Surplus(i));
        }
        if end / 8 < self.bytes.len() {
            return Err(BitsFault::Surplus(end));
        }
        Ok(())
    }
}
