// One record come or gone: the later ones move within the buffer.
ghost use Rattle.std.specs.Prelude.{◌≡◌, suc, ◌≤◌, ◌<◌, length};
ghost use Rattle.rym1.specs.File.{count, size, point_bytes};
ghost use Rattle.rym1.specs.Edits.{inserted, removed};

use points::records::{count, out_point};
use rym1::Point;

// A record arrives at index i.
#[tactic(auto, using(crate::proofs::Moving::come), unfolding(rym1::specs::File::size))]
pub fn insert_point(file: &mut [u8], i: u32, p: Point)
    requires in_order { i ≤ count file.old }
    requires few { count file.old < 4294967295 }
    requires room { size (suc (count file.old)) ≤ length file.old }
    ensures { file.new ≡ inserted file.old i (point_bytes p) }
{
    let n = count(file);
    let at = 64 + 16 * (i as usize);
    file.copy_within(at..64 + 16 * (n as usize), at + 16);
    out_point(file, at, p);
    binary::out_u32(file, 12, n + 1);
}

// The record at index i goes.
#[tactic(auto, unfolding(rym1::specs::File::size))]
pub fn remove_point(file: &mut [u8], i: u32)
    requires there { i < count file.old }
    requires room { size (count file.old) ≤ length file.old }
    ensures { file.new ≡ removed file.old i }
{
    let n = count(file);
    let at = 64 + 16 * (i as usize);
    let end = 64 + 16 * (n as usize);
    file.copy_within(at + 16..end, at);
    file[end - 16..end].fill(0);
    binary::out_u32(file, 12, n - 1);
}
