// The visit of a box, z outermost, x innermost, as runs of records: the one traversal of a box's points.
ghost use Rattle.std.specs.Prelude.{◌≡◌, ◌+◌, ◌<◌, [], MatchOption};
ghost use Rattle.std.specs.Iterator.{at_most};
ghost use Rattle.rym1.specs.Cells.{look};
ghost use Rattle.rtm1.specs.Boxes.{Within};
ghost use Rattle.rtm1.specs.Visit.{visit};
ghost use Rattle.runs.specs.Left.{Reached, Starts, points_from};

use crate::{Lookup, Rest};
use rtm1::Cells;

// A cell.
#[derive(Clone, Copy)]
pub struct Place {
    pub z: u32,
    pub y: u32,
    pub x: u32,
}

// Records on end, from an index on, that are points of row y, z.
#[derive(Clone, Copy)]
pub struct Stretch {
    pub z: u32,
    pub y: u32,
    pub index: u32,
    pub count: u32,
    pub ghost fits: { index + count < 4294967296 },
}

// A box's points from a cell on.
#[derive(Clone, Copy)]
pub struct Runs<'a> {
    pub lookup: Lookup<'a>,
    pub b: Cells,
    pub at: Place,
    ghost in_grid: { Within lookup.g b },
    ghost reached: { Reached b at },
}

impl<'a> Lookup<'a> {
    // The points of a box.
    pub fn runs(&self, b: Cells) -> Runs<'a>
        requires { Within self.now.g b }
        ensures points { points_from (look result.lookup.file.bytes.now) result.lookup.g result.b result.at ≡ visit (look self.now.file.bytes.now) self.now.g b }
        ensures file { result.lookup.file.bytes.now ≡ self.now.file.bytes.now }
    {
        let at = Place {
            z: b.z0,
            y: b.y0,
            x: b.x0,
        };
        Runs {
            lookup: *self,
            b,
            at,
        }
    }
}

impl Runs<'_> {
    // Where the next run starts: in the row, at the next row's first cell, or at the next plane's.
    #[inline(always)]
    fn start(&self) -> Option<Place>
        ensures { MatchOption result (points_from (look self.now.lookup.file.bytes.now) self.now.lookup.g self.now.b self.now.at ≡ [])
            (λ p. Starts (look self.now.lookup.file.bytes.now) self.now.lookup.g self.now.b self.now.at p) }
    {
        let b = self.b;
        let at = self.at;
        if at.x < b.x1 {
            return Some(at);
        }
        if at.y + 1 < b.y1 {
            return Some(Place {
                z: at.z,
                y: at.y + 1,
                x: b.x0,
            });
        }
        if at.z + 1 < b.z1 {
            return Some(Place {
                z: at.z + 1,
                y: b.y0,
                x: b.x0,
            });
        }
        None
    }
}

impl Iterator for Runs<'_> {
    type Item = Stretch;

    ghost use Rattle.runs.specs.Walk.{Stepped, cells_left};

    ghost next_gives = { Stepped };

    ghost remaining = { λ s. at_most (cells_left s) };

    #[inline(always)]
    fn next(&mut self) -> Option<Stretch> {
        let from = self.start()?;
        let rest = Rest {
            lookup: self.lookup,
            z: from.z,
            y: from.y,
            x: from.x,
            x1: self.b.x1,
        };
        let r = rest.next_run();
        self.at = Place { x: r.next, ..from };
        Some(Stretch {
            z: rest.z,
            y: rest.y,
            index: r.index,
            count: r.count,
        })
    }
}
