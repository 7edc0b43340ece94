// The cells in z, y, x order: the records of those whose point lies inside, and the raw sums.
#![tactic(auto)]

pub mod frame;

ghost use Rattle.std.specs.Prelude.{◌≡◌, cond, is_some, ◌&&◌, ◌+◌, ◌*◌, ◌/◌, ◌≤◌, ◌<◌, length};
ghost use Rattle.rym1.specs.Bytes.{splice};
ghost use Rattle.float.specs.Narrow.{float_word};
ghost use Rattle.rym1.specs.File.{finite, size, point_bytes};
ghost use Rattle.rym1.specs.Cells.{cell_point};
ghost use Rattle.filling.specs.Vector.{times};
ghost use Rattle.filling.specs.Lists.{mesh as mesh_of, kernels};
ghost use Rattle.filling.specs.Inside.{test_box};
ghost use Rattle.filling.specs.Density.{density_at};
ghost use Rattle.filling.specs.Frame as def;
ghost use Rattle.filling.specs.Fill.{capacity, inner, fine};
ghost use Rattle.visit.specs.Visited.{raw_point, with_cell, Visiting};

use density::density_at;
use filling::{Bounds, Frame, Vec3};
use frame::middle;
use inside::is_inside;
use model::Mesh;
use points::records::{cell_point, cells, out_point};
use std::num::f32_to_bits_with_nan;

// How many points, the raw sums of their masses, and whether a mass is too large: no Option of the sums, since `Visiting` promises them behind such a mass too.
#[derive(Clone, Copy, Default)]
pub struct Found {
    pub count: u32,
    pub cauchy: f64,
    pub elliptic: f64,
    pub large: bool,
}

// What is visited: a mesh within bounds and its padded box, the two lists of kernels, and the cells, g to an axis.
#[derive(Clone, Copy)]
pub struct Grid<'a> {
    pub mesh: Mesh<'a>,
    pub cauchy: &'a [u8],
    pub elliptic: &'a [u8],
    pub b: Bounds,
    pub f: Frame,
    pub g: u32,
    ghost box_is: { b ≡ test_box (mesh_of mesh.bytes.now) },
    ghost some: { 0 < g },
    ghost few: { g ≤ 256 },
}

// A mass at a point: density × volume.
fn mass_at(list: &[u8], p: Vec3, volume: f64) -> f64
    ensures { result ≡ times (density_at (kernels list.now) p) volume }
{
    density_at(list, p) * volume
}

// The record of the cell c with these masses, from a byte on; none where one is too large, and then nothing is written. Why g is a plain number: points/records.rt. let .. else: docs/DECISIONS.md 97.
#[tactic(auto, using(binary::proofs::Words::word_large))]
fn out_masses(out: &mut [u8], at: usize, g: u32, c: u32, cauchy: f64, elliptic: f64) -> Option<()>
    requires { (0 < g) × (at + 16 ≤ length out.old) }
    ensures told { is_some result ≡ (finite (float_word cauchy) && finite (float_word elliptic)) }
    ensures written { out.new ≡ cond (is_some result) (splice out.old at (point_bytes (cell_point g c (record { cauchy = float_word cauchy; elliptic = float_word elliptic })))) out.old }
{
    let Some(first) = float::narrow(cauchy) else {
        return None;
    };
    let Some(second) = float::narrow(elliptic) else {
        return None;
    };
    let point = cell_point(
        g,
        c,
        f32_to_bits_with_nan(first),
        f32_to_bits_with_nan(second),
    );
    out_point(out, at, point);
    Some(())
}

// Adds the cell c, whose point p lies inside: its record behind the others, its masses to the sums.
#[tactic(auto, unfolding(filling::specs::Fill::mass_of, crate::specs::Visited::raw_point, crate::specs::Visited::with_cell, rym1::specs::Cells::cell_point))]
fn add_cell(grid: &Grid, c: u32, p: Vec3, w: Found, out: &mut [u8]) -> Found
    requires room { (w.count < 16777216) × (64 + 16 * w.count + 16 ≤ length out.old) }
    requires middle { p ≡ def.middle grid.now.f grid.now.g c }
    ensures value { result ≡ with_cell grid.now.f grid.now.g (kernels grid.now.cauchy.now) (kernels grid.now.elliptic.now) w c }
    ensures out_after { let point = raw_point grid.now.f grid.now.g (kernels grid.now.cauchy.now) (kernels grid.now.elliptic.now) c in
        out.new ≡ cond (fine point) (splice out.old (64 + 16 * w.count) (point_bytes point)) out.old }
{
    let first = mass_at(grid.cauchy, p, grid.f.volume);
    let second = mass_at(grid.elliptic, p, grid.f.volume);
    let at = 64 + 16 * (w.count as usize);
    let fine = out_masses(out, at, grid.g, c, first, second).is_some();
    Found {
        count: w.count + 1,
        cauchy: w.cauchy + first,
        elliptic: w.elliptic + second,
        large: w.large || !fine,
    }
}

// Half the cells, rounded up. Why g is a plain number: points/records.rt.
#[tactic(auto, unfolding(filling::specs::Fill::capacity))]
pub fn capacity_of(g: u32) -> u32
    requires { g ≤ 256 }
    ensures { result ≡ capacity g }
{
    (cells(g) as u32 + 1) / 2
}

// Visits all cells: the finds, or none where there are more points than half the cells.
#[tactic(auto, using(crate::proofs::Visiting::visit_start))]
pub fn visit_cells(grid: &Grid, floats: &mut [f64], out: &mut [u8]) -> Option<Found>
    requires scratch { length grid.now.mesh.bytes.now / 72 ≤ length floats.old }
    requires room { size (capacity grid.now.g) ≤ length out.old }
    ensures { Visiting grid.now.f grid.now.g (kernels grid.now.cauchy.now) (kernels grid.now.elliptic.now)
        (inner (mesh_of grid.now.mesh.bytes.now) grid.now.f grid.now.g) out.old result out.new }
{
    let capacity = capacity_of(grid.g);
    let mut w = Found::default();
    for c in 0..cells(grid.g) as u32 {
        let p = middle(grid.f, grid.g, c);
        if !is_inside(grid.mesh, grid.b, p, floats) {
            continue;
        }
        if capacity <= w.count {
            return None;
        }
        w = add_cell(grid, c, p, w, out);
    }
    Some(w)
}
