// Boxes of cells: what a box becomes, and how it is split.
#![tactic(auto)]

ghost use Rattle.std.specs.Prelude.{◌≡◌, ◌≤◌, ◌+◌, ◌-◌, ◌/◌};
ghost use Rattle.rtm1.specs.Boxes.{Proper, whole, widest, lower, upper};
ghost use Rattle.rtm1.specs.Tree.{kind_of};

use rtm1::{Axis, Cells, Kind};

// The points up to which a box is a leaf.
const MASCON_LEAF_POINTS: u32 = 8;

// The root box.
pub fn whole(g: u32) -> Cells
    ensures { result ≡ whole g }
{
    Cells {
        x0: 0,
        x1: g,
        y0: 0,
        y1: g,
        z0: 0,
        z1: g,
    }
}

// That a box has cells (`Proper`) stays a clause: `Cells` is the definitions' type, the root box of a grid of 0 has none, and a type round it would be taken off again by each of these.

// What a box of n points becomes.
#[tactic(auto, unfolding(rtm1::specs::Tree::kind_of))]
pub fn kind_of(n: u32, b: Cells) -> Kind
    requires { Proper b }
    ensures { result ≡ kind_of n b }
{
    if n == 0 {
        return Kind::Empty;
    }
    if n > MASCON_LEAF_POINTS && (b.x1 - b.x0 > 1 || b.y1 - b.y0 > 1 || b.z1 - b.z0 > 1) {
        return Kind::Split;
    }
    Kind::Leaf
}

// The widest axis, ties to x, then y.
#[tactic(auto, unfolding(rtm1::specs::Boxes::widest))]
fn widest(b: Cells) -> Axis
    requires { Proper b }
    ensures { result ≡ widest b }
{
    let x = b.x1 - b.x0;
    let y = b.y1 - b.y0;
    let z = b.z1 - b.z0;
    if y <= x && z <= x {
        return Axis::X;
    }
    if z <= y {
        return Axis::Y;
    }
    Axis::Z
}

// Where the lower half of low up to high ends and the upper one starts.
fn middle(low: u32, high: u32) -> u32
    requires { low ≤ high }
    ensures { result ≡ low + (high - low) / 2 }
{
    low + (high - low) / 2
}

#[derive(Clone, Copy)]
pub struct Pair {
    pub low: Cells,
    pub high: Cells,
}

// The two halves along the widest axis. An arm an axis, as the ends have names.
pub fn halves(b: Cells) -> Pair
    requires { Proper b }
    ensures { (result.low ≡ lower (widest b) b) × (result.high ≡ upper (widest b) b) }
{
    match widest(b) {
        Axis::X => {
            let x = middle(b.x0, b.x1);
            Pair {
                low: Cells { x1: x, ..b },
                high: Cells { x0: x, ..b },
            }
        }
        Axis::Y => {
            let y = middle(b.y0, b.y1);
            Pair {
                low: Cells { y1: y, ..b },
                high: Cells { y0: y, ..b },
            }
        }
        Axis::Z => {
            let z = middle(b.z0, b.z1);
            Pair {
                low: Cells { z1: z, ..b },
                high: Cells { z0: z, ..b },
            }
        }
    }
}
