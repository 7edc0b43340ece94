// Where a cell stands among the records of a file in working form.
ghost use Rattle.std.specs.Prelude.{◌≡◌, ◌≤◌};
ghost use Rattle.rym1.specs.File.{point_at, cell_of};
ghost use Rattle.working.specs.Spotted.{Spotted};

use points::file::WorkingFile;
use points::records::point_at;

// The number of the cell that a record names, in 64 bits: the search hands it any sixteen bytes, of which the number may pass 32. Why g is a plain number: points/records.rt.
fn cell_in(g: u32, bytes: &[u8; 16]) -> u64
    requires { g ≤ 256 }
    ensures { result ≡ cell_of g (point_at bytes.now 0) }
{
    let p = point_at(bytes, 0);
    (p.z as u64 * g as u64 + p.y as u64) * g as u64 + p.x as u64
}

// Ok, the index of the cell's record; Err, how many records stand before its place.
pub fn find_cell(file: WorkingFile<'_>, c: u32) -> Result<u32, u32>
    ensures { Spotted file.entry.file.bytes.now c result }
{
    let g = file.file.grid();
    let end = 64 + 16 * file.file.count() as usize;
    let (records, _) = file.file.bytes[64..end].as_chunks::<16>();
    match records.binary_search_by_key(&(c as u64), |record| cell_in(g, record)) {
        Ok(i) => Ok(i as u32),
        Err(i) => Err(i as u32),
    }
}
