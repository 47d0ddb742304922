// What a plan holds, and what holds of every plan.
ghost use Rattle.plan.specs.Shape.{Counted, Paired, Rooted, Stored, Unpaired};

// A tree of terms, the pairs of terms to separate, and a budget: an instance of Multicut in Trees.
// Terms are numbered from 0, the root. The link of a term is the tree edge to its broader term, its
// parent, and bears the term's number. Places that no term or pair uses are zero. The arrays lie in fixed memory; the
// three numbers are fields here as in a header, since the invariant and the definitions of files name them.
#[derive(Clone, Copy)]
pub struct Plan {
    // how many terms, 1 to 256
    pub(crate) terms: u16,
    // how many pairs, 0 to 256
    pub(crate) pairs: u16,
    // how many links may be cut
    pub(crate) budget: u8,
    // the broader term of each term but 0
    pub(crate) broader: [u8; 256],
    // the two terms of each pair, the smaller first
    pub(crate) ends: [(u8, u8); 256],
    ghost counted: { Counted terms pairs },
    ghost rooted: { Rooted terms broader },
    ghost paired: { Paired terms pairs ends },
    ghost unpaired: { Unpaired pairs ends },
    ghost stored: { Stored budget broader ends },
}
