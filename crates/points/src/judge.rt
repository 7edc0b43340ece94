// Why a point file is refused: causes 1 to 7, and 10.
ghost use Rattle.std.specs.Prelude.{◌≡◌, ◌+◌, ◌*◌, ◌≤◌, ◌<◌, ◌&&◌, length, IfOk};
ghost use Rattle.rym1.specs.Bytes.{word32};
ghost use Rattle.rym1.specs.Causes.{judged};
ghost use Rattle.rym1.specs.File.{grid, count, points, points_at, size, finite, all_finite, header_floats, below};
ghost use Rattle.rym1.specs.File.{grid_cause, place_cause, mass_cause, point_cause, points_cause, header_cause, file_cause, working, work_cause};

use crate::file::{PointFile, WorkingFile};
use crate::records::{cell_number, count, grid, point_at};
use float::pattern::Binary32;
use rym1::{Cause, Point};

// The pattern of a finite float.
pub fn is_finite(pattern: u32) -> bool
    ensures { result ≡ finite pattern }
{
    float::pattern::is_finite::<Binary32>(pattern as u64)
}

// The most cells to an axis.
const MAX_GRID: u32 = 256;

// 3, of a header or of a call's own number.
pub fn grid_cause(g: u32) -> Result<(), Cause>
    ensures { judged result ≡ grid_cause g }
{
    if g == 0 || MAX_GRID < g {
        return Err(Cause::GridOutside);
    }
    Ok(())
}

// 6, of a record or of a call's own numbers. Three coordinates are three parameters, here and elsewhere, as the calls have them.
pub fn place_cause(g: u32, x: u32, y: u32, z: u32) -> Result<(), Cause>
    ensures { judged result ≡ place_cause g x y z }
{
    if x < g && y < g && z < g {
        return Ok(());
    }
    Err(Cause::CoordinateOutside)
}

// 7, the same.
pub fn mass_cause(cauchy: u32, elliptic: u32) -> Result<(), Cause>
    ensures { judged result ≡ mass_cause cauchy elliptic }
{
    if is_finite(cauchy) && is_finite(elliptic) {
        return Ok(());
    }
    Err(Cause::MassNotFinite)
}

// 6 before 7.
pub fn point_cause(g: u32, p: Point) -> Result<(), Cause>
    ensures { judged result ≡ point_cause g p }
{
    place_cause(g, p.x, p.y, p.z)?;
    mass_cause(p.cauchy, p.elliptic)
}

// Records in file order: the first bad one decides. g and n are the header's, read once.
fn points_cause(file: &[u8], g: u32, n: u32) -> Result<(), Cause>
    requires { size n ≤ length file.now }
    ensures { judged result ≡ points_cause g (points_at file.now 64 n) }
{
    for i in 0..n {
        point_cause(g, point_at(file, 64 + 16 * i as usize))?;
    }
    Ok(())
}

// Three floats of the header, from a byte on.
fn are_finite(file: &[u8], at: usize) -> bool
    requires { at + 12 ≤ length file.now }
    ensures { result ≡ (finite (word32 file.now at) && (finite (word32 file.now (at + 4)) && finite (word32 file.now (at + 8)))) }
{
    is_finite(binary::u32_at(file, at))
        && is_finite(binary::u32_at(file, at + 4))
        && is_finite(binary::u32_at(file, at + 8))
}

// The nine floats that are read. This and the next two read a header before the file is accepted; why not an array of its bytes: points/records.rt.
fn has_finite_floats(file: &[u8]) -> bool
    requires { 64 ≤ length file.now }
    ensures { result ≡ all_finite (header_floats file.now) }
{
    are_finite(file, 16) && are_finite(file, 32) && are_finite(file, 44)
}

// Min below max on an axis, by IEEE 754. The axis is an index into the floats.
fn is_below(file: &[u8], axis: usize) -> bool
    requires { (64 ≤ length file.now) × (axis < 3) }
    ensures { result ≡ below file.now axis }
{
    let min = std::num::f32_from_bits_with_nan(binary::u32_at(file, 32 + 4 * axis));
    let max = std::num::f32_from_bits_with_nan(binary::u32_at(file, 44 + 4 * axis));
    min < max
}

fn has_box(file: &[u8]) -> bool
    requires { 64 ≤ length file.now }
    ensures { result ≡ (below file.now 0 && (below file.now 1 && below file.now 2)) }
{
    is_below(file, 0) && is_below(file, 1) && is_below(file, 2)
}

// 1 to 5.
fn header_cause(file: &[u8]) -> Result<(), Cause>
    ensures { judged result ≡ header_cause file.now }
{
    if file.len() < 64 {
        return Err(Cause::FileShort);
    }
    if binary::u32_at(file, 0) != 0x314d5952 || binary::u32_at(file, 4) != 1 {
        return Err(Cause::MarkWrong);
    }
    grid_cause(grid(file))?;
    let n = count(file) as usize;
    if file.len() < 64 + 16 * n {
        return Err(Cause::RecordsMissing);
    }
    if has_finite_floats(file) && has_box(file) {
        return Ok(());
    }
    Err(Cause::HeaderFloat)
}

// 1 to 7.
pub fn parse_mascon_bytes(file: &[u8]) -> Result<PointFile<'_>, Cause>
    ensures cause { judged result ≡ file_cause file.now }
    ensures file { IfOk result (λ p. p.bytes.now ≡ file.now) }
{
    header_cause(file)?;
    points_cause(file, grid(file), count(file))?;
    Ok(PointFile { bytes: file })
}

// Strictly ascending by cell number, each pad 0.
fn is_working(file: PointFile<'_>) -> bool
    ensures { result ≡ working (grid file.entry.bytes.now) 0 (points file.entry.bytes.now) }
{
    let g = file.grid();
    let n = file.count();
    let mut low: u32 = 0;
    for i in 0..n {
        let p = file.point(i);
        let c = cell_number(g, p.x, p.y, p.z);
        if c < low || p.pad != 0 {
            return false;
        }
        low = c + 1;
    }
    true
}

// 10.
pub fn work_cause(file: PointFile<'_>) -> Result<WorkingFile<'_>, Cause>
    ensures cause { judged result ≡ work_cause file.entry.bytes.now }
    ensures file { IfOk result (λ w. w.file.bytes.now ≡ file.entry.bytes.now) }
{
    if is_working(file) {
        return Ok(WorkingFile { file });
    }
    Err(Cause::NotWorking)
}
