// A point file that nothing is against, with its fields and records; and one in working form.
ghost use Rattle.std.specs.Prelude.{◌≡◌, ◌+◌, ◌*◌, ◌<◌, ◌≤◌};
ghost use Rattle.rym1.specs.File.{grid, count, point_at, cell_of, cube, file_cause, work_cause};
ghost use Rattle.rym1.proofs.Accepted.{Inside};

use crate::records;
use rym1::Point;

#[derive(Clone, Copy)]
pub struct PointFile<'a> {
    pub bytes: &'a [u8],
    ghost accepted: { file_cause bytes.now ≡ 0 },
}

impl<'a> PointFile<'a> {
    // Cells to an axis, 1 to 256.
    pub fn grid(&self) -> u32
        ensures value { result ≡ grid self.now.bytes.now }
        ensures few { result ≤ 256 }
        ensures pos { 0 < result }
    {
        records::grid(self.bytes)
    }

    pub fn count(&self) -> u32
        ensures { result ≡ count self.now.bytes.now }
    {
        records::count(self.bytes)
    }

    // A record, by its index: it names a cell of the grid.
    pub fn point(&self, i: u32) -> Point
        requires { i < count self.now.bytes.now }
        ensures value { result ≡ point_at self.now.bytes.now (64 + 16 * i) }
        ensures inside { Inside (grid self.now.bytes.now) result.x result.y result.z }
    {
        records::point_at(self.bytes, 64 + 16 * i as usize)
    }

    // The number of the cell that a record names.
    #[tactic(auto, unfolding(rym1::specs::File::cell_of))]
    pub fn cell(&self, i: u32) -> u32
        requires { i < count self.now.bytes.now }
        ensures value { result ≡ cell_of (grid self.now.bytes.now) (point_at self.now.bytes.now (64 + 16 * i)) }
        ensures within { result < cube (grid self.now.bytes.now) }
    {
        let p = self.point(i);
        records::cell_number(self.grid(), p.x, p.y, p.z)
    }
}

// An accepted file in working form.
#[derive(Clone, Copy)]
pub struct WorkingFile<'a> {
    pub file: PointFile<'a>,
    ghost works: { work_cause file.bytes.now ≡ 0 },
}
