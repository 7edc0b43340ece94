// A subtree's root.
ghost use Rattle.std.specs.Prelude.{◌<◌};
ghost use Rattle.rtm1.specs.Boxes.{Within};

use rtm1::{Cells, Sums};

// Its place in preorder, how many points are ordered before it, its box, and the sums of the box's points.
#[derive(Clone, Copy)]
pub struct Root {
    pub node: u32,
    pub before: u32,
    pub b: Cells,
    pub s: Sums,
    ghost within: { Within 256 b },
    ghost low: { node < 4294967295 },
}
