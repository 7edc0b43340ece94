// Fill: the point file of a mesh (mascon_grid.rs).
#![tactic(auto)]

pub mod scaling;

ghost use Rattle.std.specs.Prelude.{◌≡◌, true, ◌+◌, ◌*◌, ◌/◌, ◌≤◌, length, replicate};
ghost use Rattle.rym1.specs.Causes.{told, outcome};
ghost use Rattle.rym1.specs.File.{size};
ghost use Rattle.filling.specs.Lists.{mesh as mesh_of};
ghost use Rattle.filling.specs.Inside.{bounds};
ghost use Rattle.filling.specs.Frame as def;
ghost use Rattle.filling.specs.Fill.{task, lists_wrong, capacity, filled, fill, early};
ghost use Rattle.mascon_grid.specs.Scaled.{finished};

use accelerator::{bounds_of, padded};
use density::kernels_wrong;
use model::{Mesh, mesh_wrong, up_to};
use points::judge::grid_cause;
use rym1::Cause;
use scaling::{header_of, scale_records};
use visit::frame::{box_flat, frame_of};
use visit::{Found, Grid, capacity_of, visit_cells};

// The call's six lists and numbers are no struct: they are judged first, and from then on `Grid` carries all but target and density, two numbers that go on to `finish`.

// 17.
#[tactic(auto, unfolding(filling::specs::Fill::lists_wrong))]
fn lists_wrong(triangles: &[u8], cauchy: &[u8], elliptic: &[u8], target: f64, density: f64) -> bool
    ensures { result ≡ lists_wrong triangles.now cauchy.now elliptic.now target density }
{
    mesh_wrong(triangles)
        || kernels_wrong(cauchy)
        || kernels_wrong(elliptic)
        || !up_to(1e30, target)
        || !up_to(1e30, density)
}

// 18 and 20 zero the whole output.
fn clear_refused(out: &mut [u8], cause: Cause) -> Result<u64, Cause>
    ensures { (result ≡ Err cause) × (out.new ≡ replicate (length out.old) 0) }
{
    out.fill(0);
    Err(cause)
}

// The finds w, whose records stand in `out` from 64 on: scaled, judged, and the header before them.
fn finish(out: &mut [u8], grid: &Grid, w: Found, target: f64, density: f64) -> Result<u64, Cause>
    requires { 64 + 16 * w.count ≤ length out.old }
    ensures { outcome (told result) out.new ≡ finished grid.now.g grid.now.f w target density out.old }
{
    let Some(words) = scale_records(out, grid.f, w, target, density) else {
        return clear_refused(out, Cause::FloatNotFinite);
    };
    binary::out_words(out, 0, header_of(grid.g, w.count, words));
    Ok(64 + 16 * (w.count as u64))
}

// Fill, once 3 to 19 are passed: the grid's cells are those of the mesh's box.
fn fill_grid(
    grid: &Grid,
    target: f64,
    density: f64,
    floats: &mut [f64],
    out: &mut [u8],
) -> Result<u64, Cause>
    requires frame { grid.now.f ≡ def.frame (bounds (mesh_of grid.now.mesh.bytes.now)) grid.now.g }
    requires scratch { length grid.now.mesh.bytes.now / 72 ≤ length floats.old }
    requires room { size (capacity grid.now.g) ≤ length out.old }
    ensures { outcome (told result) out.new
        ≡ filled (task grid.now.g grid.now.mesh.bytes.now grid.now.cauchy.now grid.now.elliptic.now target density) out.old }
{
    let Some(w) = visit_cells(grid, floats, out) else {
        return clear_refused(out, Cause::CapacityExceeded);
    };
    if w.large {
        return clear_refused(out, Cause::FloatNotFinite);
    }
    finish(out, grid, w, target, density)
}

// Fill: the point file of the mesh s into `out`.
#[tactic(auto, using(rym1::proofs::Accepted::grid_right, filling::proofs::Lists::mesh_good), unfolding(filling::specs::Fill::lists_wrong, filling::specs::Fill::fill, filling::specs::Fill::fill_cause, filling::specs::Fill::frame_of, rym1::specs::File::size, rym1::specs::Causes::first, rym1::specs::Causes::when, rym1::specs::Causes::refuse, rym1::specs::Causes::outcome, rym1::specs::Causes::told, rym1::specs::Causes::judged, rym1::specs::Causes::number))]
pub fn build_mascon<'a>(
    g: u32,
    s: &'a [u8],
    cauchy: &'a [u8],
    elliptic: &'a [u8],
    target: f64,
    density: f64,
    floats: &mut [f64],
    out: &mut [u8],
) -> Result<u64, Cause>
    ensures { (outcome (told result) out.new
        ≡ fill (task g s.now cauchy.now elliptic.now target density)
        (length floats.old) out.old)
        × (early (told result) ≡ true → floats.new ≡ floats.old) }
{
    grid_cause(g)?;
    if lists_wrong(s, cauchy, elliptic, target, density) {
        return Err(Cause::ListWrong);
    }
    if floats.len() < s.len() / 72 {
        return Err(Cause::ScratchShort);
    }
    if out.len() < 64 + 16 * (capacity_of(g) as usize) {
        return Err(Cause::OutputShort);
    }
    let bounds = bounds_of(s);
    let f = frame_of(bounds, g);
    if box_flat(f) {
        return Err(Cause::BoxFlat);
    }
    let mesh = Mesh { bytes: s };
    let grid = Grid {
        mesh,
        cauchy,
        elliptic,
        b: padded(bounds),
        f,
        g,
    };
    fill_grid(&grid, target, density, floats, out)
}
