// Which links several pairs may have in common. An enum and no closure, which would put a `requires` on a public
// function.

#[derive(Clone, Copy, PartialEq, Eq, Debug)]
pub enum Common {
    // those on the road of a pair
    RoadOf(u16),
    // one link
    Link(u16),
    // none
    Nothing,
}
