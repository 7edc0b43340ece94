// A point file's fields and records, read by name, and a record written.
ghost use Rattle.std.specs.Prelude.{◌≡◌, ◌+◌, ◌≤◌, ◌<◌, length, ◌++◌};
ghost use Rattle.rym1.specs.Bytes.{le16, le64, splice};
ghost use Rattle.rym1.specs.File.{grid, count, point_at, point_bytes, cell, cube};
ghost use Rattle.rym1.specs.Cells.{cell_point};
ghost use Rattle.rym1.proofs.Accepted.{Inside};

use rym1::Point;

// Why a grid's number g is a plain number with a clause: each function asks what it needs alone, at most 256 or above 0. A type of both would ask more of the callers of the public ones, and out
// of a type of each the number would be taken at every use.

// How many cells a grid has.
pub fn cells(g: u32) -> usize
    requires { g ≤ 256 }
    ensures { (result ≡ cube g) × (result ≤ 16777216) }
{
    let side = g as usize;
    side * side * side
}

// The next two take any bytes with a header, as the judge reads them before the file is accepted; an accepted file has methods for them (`PointFile`). Of a header cut out as an array each contract
// would speak of the cut, and not of the file.

// The header's grid.
pub fn grid(file: &[u8]) -> u32
    requires { 64 ≤ length file.now }
    ensures { result ≡ grid file.now }
{
    binary::u32_at(file, 8)
}

// The header's count of records.
pub fn count(file: &[u8]) -> u32
    requires { 64 ≤ length file.now }
    ensures { result ≡ count file.now }
{
    binary::u32_at(file, 12)
}

// The record that starts at a byte.
pub fn point_at(file: &[u8], at: usize) -> Point
    requires { at + 16 ≤ length file.now }
    ensures { result ≡ point_at file.now at }
{
    let x = binary::u16_at(file, at);
    let y = binary::u16_at(file, at + 2);
    let z = binary::u16_at(file, at + 4);
    let pad = binary::u16_at(file, at + 6);
    let cauchy = binary::u32_at(file, at + 8);
    let elliptic = binary::u32_at(file, at + 12);
    Point {
        x,
        y,
        z,
        pad,
        cauchy,
        elliptic,
    }
}

// The number of a cell of the grid.
pub fn cell_number(g: u32, x: u32, y: u32, z: u32) -> u32
    requires grid_few { g ≤ 256 }
    requires inside { Inside g x y z }
    ensures { (result ≡ cell g x y z) × (result < cube g) }
{
    (z * g + y) * g + x
}

// The record of a cell of the grid, by its number.
pub fn cell_point(g: u32, c: u32, cauchy: u32, elliptic: u32) -> Point
    requires { 0 < g }
    ensures { result ≡ cell_point g c (record { cauchy = cauchy; elliptic = elliptic }) }
{
    Point {
        x: c % g,
        y: c / g % g,
        z: c / g / g,
        pad: 0,
        cauchy,
        elliptic,
    }
}

// The first eight bytes of a record, as a number: x lowest, two bytes each. By arithmetic, so that they are one store and not four (docs/DECISIONS.md 79).
fn place_number(p: Point) -> u64
    ensures { le64 result ≡ le16 p.x ++ (le16 p.y ++ (le16 p.z ++ le16 p.pad)) }
{
    let x = (p.x % 65536) as u64;
    let y = (p.y % 65536) as u64;
    let z = (p.z % 65536) as u64;
    let pad = (p.pad % 65536) as u64;
    ((pad * 65536 + z) * 65536 + y) * 65536 + x
}

// A record at a byte.
pub fn out_point(file: &mut [u8], at: usize, p: Point)
    requires { at + 16 ≤ length file.old }
    ensures { file.new ≡ splice file.old at (point_bytes p) }
{
    binary::out_u64(file, at, place_number(p));
    binary::out_u32(file, at + 8, p.cauchy);
    binary::out_u32(file, at + 12, p.elliptic);
}
