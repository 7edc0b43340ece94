// A triangle's rectangle: the pairs of its y and z indices.
ghost use Rattle.std.specs.Prelude.{◌<◌};
ghost use Rattle.counting.specs.declared.TheConstants.{AXIS};

use crate::{AXIS, PAIRS};

// From the index lj through hj on y, from lk through hk on z; with hj below lj, or hk below lk, no pair.
#[derive(Clone, Copy)]
pub struct Rect {
    pub lj: usize,
    pub hj: usize,
    pub lk: usize,
    pub hk: usize,
    pub ghost lj_in: { lj < AXIS },
    pub ghost hj_in: { hj < AXIS },
    pub ghost lk_in: { lk < AXIS },
    pub ghost hk_in: { hk < AXIS },
}

impl Rect {
    ghost use Rattle.std.specs.Prelude.{◌≡◌, ◌+◌, ◌*◌, ◌<◌};
    ghost use Rattle.counting.specs.Rectangle.{in_rect, bits_to};

    // The pairs of its row k, from the first number up to the second. Both walks are `for k in lk..hk + 1`: a method that takes what to do there
    // as a closure, or an iterator of the rows, would be no plainer, as its contract would have to carry each walk's invariant through its steps.
    pub fn row(&self, k: usize) -> (usize, usize)
        requires { k < AXIS }
        ensures low { result.0 ≡ k * AXIS + self.now.lj }
        ensures high { result.1 ≡ k * AXIS + self.now.hj + 1 }
    {
        (k * AXIS + self.lj, k * AXIS + self.hj + 1)
    }

    // How many pairs it holds.
    pub fn size(&self) -> u64
        ensures { result ≡ bits_to (in_rect self.now) PAIRS }
    {
        let columns = (self.hj + 1).saturating_sub(self.lj) as u64;
        let rows = (self.hk + 1).saturating_sub(self.lk) as u64;
        columns * rows
    }
}
