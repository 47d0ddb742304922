// Reads a plan from its packed bytes.
ghost use Rattle.std.specs.Prelude.{◌≡◌, ℕ, ◌*◌, ◌<◌, ◌≤◌, length, MatchResult, slice_index, slice_index_or};
ghost use Rattle.plan.specs.Layout.{broader_in, broader_place, budget_in, ends_in, pair_place, pairs_in, terms_in, Describes, Headed, PairsBelow, Refuses, TreeBelow};
ghost use Rattle.plan.specs.Shape.{Ordered, Paired, Rooted, Unpaired};
ghost use Rattle.plan.specs.declared.fault.PlanFault.TheVariants.{Bits, BroaderTerm, PairTerms};

use crate::bits::BitReader;
use crate::fault::{BitsFault, PlanFault};
use crate::header::Header;
use crate::shape::Plan;

// Written out, since proofs of `?` read `from_gives`.
impl From<BitsFault> for PlanFault {
    ghost from_gives = { λ e r. r ≡ Bits e };

    fn from(e: BitsFault) -> PlanFault {
        PlanFault::Bits(e)
    }
}

impl Header {
    // The three numbers in front of the file.
    fn read(bits: &mut BitReader) -> Result<Self, PlanFault>
        requires { bits.old.at ≡ 0 }
        ensures cases { MatchResult result (λ h. Headed bits.old.bytes.now × (h.terms ≡ terms_in bits.old.bytes.now) × (h.pairs ≡ pairs_in bits.old.bytes.now) × (h.budget ≡ budget_in bits.old.bytes.now) × (bits.new.at ≡ 26)) (λ e. Refuses bits.old.bytes.now e) }
        ensures same { bits.new.bytes ≡ bits.old.bytes }
    {
        let terms = bits.field(9)?;
        let pairs = bits.field(9)?;
        let budget = bits.field(8)?;
        if !(1..=256).contains(&terms) {
            return Err(PlanFault::TermCount);
        }
        if pairs > 256 {
            return Err(PlanFault::PairCount);
        }
        Ok(Header {
            terms,
            pairs,
            budget: budget as u8,
        })
    }

    // The broader terms, from the place where that of term 1 stands.
    fn read_broader(self, bits: &mut BitReader) -> Result<[u8; 256], PlanFault>
        requires place { bits.old.at ≡ broader_place self.terms 1 }
        requires long { broader_place self.terms self.terms ≤ 8 * length bits.old.bytes.now }
        ensures cases { MatchResult result (λ b. Rooted self.terms b × ((t : ℕ) → 0 < t → t < self.terms → slice_index b t ≡ broader_in bits.old.bytes.now self.terms t) × TreeBelow bits.old.bytes.now self.terms self.terms × (bits.new.at ≡ broader_place self.terms self.terms)) (λ e. (t : ℕ) × (e ≡ BroaderTerm t) × (0 < t) × (t < self.terms) × TreeBelow bits.old.bytes.now self.terms t × (t ≤ broader_in bits.old.bytes.now self.terms t)) }
        ensures same { bits.new.bytes ≡ bits.old.bytes }
    {
        let width = self.width();
        // filled by index: the term's number is needed for the check and for the refusal too
        let mut broader = [0; 256];
        for t in 1..self.terms {
            let above = bits.field(width)?;
            if above >= t {
                return Err(PlanFault::BroaderTerm(t));
            }
            broader[usize::from(t)] = above as u8;
        }
        Ok(broader)
    }

    // The two terms of each pair, from the place where those of pair 0 stand.
    fn read_pairs(self, bits: &mut BitReader) -> Result<[(u8, u8); 256], PlanFault>
        requires place { bits.old.at ≡ pair_place self.terms 0 }
        requires long { pair_place self.terms self.pairs ≤ 8 * length bits.old.bytes.now }
        ensures cases { MatchResult result (λ es. Paired self.terms self.pairs es × Unpaired self.pairs es × ((q : ℕ) → q < self.pairs → slice_index_or es q (0, 0) ≡ ends_in bits.old.bytes.now self.terms q) × PairsBelow bits.old.bytes.now self.terms self.pairs × (bits.new.at ≡ pair_place self.terms self.pairs)) (λ e. (q : ℕ) × (e ≡ PairTerms q) × (q < self.pairs) × PairsBelow bits.old.bytes.now self.terms q × (Ordered self.terms (ends_in bits.old.bytes.now self.terms q) → ⊥)) }
        ensures same { bits.new.bytes ≡ bits.old.bytes }
    {
        let width = self.width();
        // filled by index, as the broader terms are
        let mut ends = [(0, 0); 256];
        for q in 0..self.pairs {
            let first = bits.field(width)?;
            let second = bits.field(width)?;
            if first >= second || second >= self.terms {
                return Err(PlanFault::PairTerms(q));
            }
            ends[usize::from(q)] = (first as u8, second as u8);
        }
        Ok(ends)
    }
}

impl Plan {
    // Fills the plan from packed bytes. A file that is refused leaves it as it was.
    pub fn read(&mut self, bytes: &[u8]) -> Result<(), PlanFault>
        ensures { MatchResult result (λ _. Describes bytes.now self.new) (λ e. Refuses bytes.now e × (self.new ≡ self.old)) }
    {
        let mut bits = BitReader::new(bytes);
        let header = Header::read(&mut bits)?;
        bits.reach(header.bits())?;
        let broader = header.read_broader(&mut bits)?;
        let ends = header.read_pairs(&mut bits)?;
        bits.finish()?;
        *self = Plan {
            terms: header.terms,
            pairs: header.pairs,
            budget: header.budget,
            broader,
            ends,
        };
        Ok(())
    }
}
