// The three numbers in front of a packed plan, and what follows from them.
ghost use Rattle.std.specs.Prelude.{◌≡◌, ◌^◌, ◌<◌, ◌≤◌};
ghost use Rattle.plan.specs.Layout.{pair_place, width_for};
ghost use Rattle.plan.specs.Shape.{Counted};

// Numbers that a plan may have.
#[derive(Clone, Copy)]
pub(crate) struct Header {
    pub(crate) terms: u16,
    pub(crate) pairs: u16,
    pub(crate) budget: u8,
    ghost counted: { Counted terms pairs },
}

impl Header {
    // How many bits a term takes.
    pub(crate) fn width(self) -> usize
        ensures value { result ≡ width_for self.terms }
        ensures bound { result ≤ 8 }
    {
        (0..8).find(|w| self.terms <= 1 << w).unwrap_or(8)
    }

    // How many bits the whole plan takes.
    pub(crate) fn bits(self) -> usize
        ensures value { result ≡ pair_place self.terms self.pairs }
        ensures bound { result < 2 ^ 20 }
    {
        let width = self.width();
        26 + (usize::from(self.terms) - 1) * width + usize::from(self.pairs) * (2 * width)
    }
}
