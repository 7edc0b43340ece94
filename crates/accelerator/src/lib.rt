// The inside test's box, the indices of a point in it, and which triangles are candidates (InsideAccelerator).
#![tactic(auto)]

ghost use Rattle.std.specs.Prelude.{◌≡◌};
ghost use Rattle.filling.specs.Lists.{mesh};
ghost use Rattle.filling.specs.Inside as def;

use filling::{Bounds, Indices, Triangle, Vec3};
use float::axis::axis_index;
use float::number::{scalar_max, scalar_min};
use model::{all_axes, each_axis, sub, triangle_at};

// The box of nothing.
fn unbounded() -> Bounds
    ensures { result ≡ def.unbounded }
{
    Bounds {
        min: all_axes(f64::INFINITY),
        max: all_axes(f64::NEG_INFINITY),
    }
}

// The box with one more point.
#[tactic(auto, unfolding(filling::specs::Inside::with_point))]
fn with_point(b: Bounds, p: Vec3) -> Bounds
    ensures { result ≡ def.with_point b p }
{
    Bounds {
        min: each_axis(scalar_min, b.min, p),
        max: each_axis(scalar_max, b.max, p),
    }
}

#[tactic(auto, unfolding(filling::specs::Inside::with_triangle))]
fn with_triangle(b: Bounds, t: Triangle) -> Bounds
    ensures { result ≡ def.with_triangle b t }
{
    with_point(with_point(with_point(b, t.a), t.b), t.c)
}

// The box of a mesh.
#[tactic(auto, using(filling::proofs::Lists::triangles_more), unfolding(filling::specs::Inside::bounds, filling::specs::Inside::bounds_from, filling::specs::Lists::mesh, filling::specs::Lists::triangles_at))]
pub fn bounds_of(s: &[u8]) -> Bounds
    ensures { result ≡ def.bounds (mesh s.now) }
{
    let mut b = unbounded();
    for i in 0..s.len() / 72 {
        b = with_triangle(b, triangle_at(s, 72 * i));
    }
    b
}

#[tactic(auto, unfolding(filling::specs::Inside::margin))]
fn margin(least: f64, greatest: f64) -> f64
    ensures { result ≡ def.margin least greatest }
{
    1e-3 * (greatest - least + 1.0)
}

// The box with its sides moved outward.
#[tactic(auto, unfolding(filling::specs::Inside::padded, filling::specs::Vector::sub))]
pub fn padded(b: Bounds) -> Bounds
    ensures { result ≡ def.padded b }
{
    let by = each_axis(margin, b.min, b.max);
    Bounds {
        min: sub(b.min, by),
        max: each_axis(|v, m| v + m, b.max, by),
    }
}

fn scaled(low: f64, high: f64, v: f64) -> f64
    ensures { result ≡ def.scaled low high v }
{
    (v - low) / (high - low) * 96.0
}

// The indices of a point.
#[tactic(auto, unfolding(filling::specs::Inside::indices))]
pub fn indices(b: Bounds, p: Vec3) -> Indices
    ensures { result ≡ def.indices b p }
{
    let i = axis_index(scaled(b.min.x, b.max.x, p.x));
    let j = axis_index(scaled(b.min.y, b.max.y, p.y));
    let k = axis_index(scaled(b.min.z, b.max.z, p.z));
    Indices { i, j, k }
}

// Whether the ranges from low to high hold the indices, on x only the upper end.
#[tactic(auto, unfolding(filling::specs::Inside::reached))]
fn reached(at: Indices, low: Indices, high: Indices) -> bool
    ensures { result ≡ def.reached at low high }
{
    low.j <= at.j && at.j <= high.j && low.k <= at.k && at.k <= high.k && at.i <= high.i
}

// A triangle's ranges on each axis: its lower and its upper indices.
#[derive(Clone, Copy)]
pub struct Ranges {
    pub low: Indices,
    pub high: Indices,
}

#[tactic(auto, unfolding(filling::specs::Inside::low_of, filling::specs::Inside::high_of, filling::specs::Inside::bounds, filling::specs::Inside::bounds_from))]
pub fn ranges_of(b: Bounds, t: Triangle) -> Ranges
    ensures { result ≡ record { low = def.low_of b t; high = def.high_of b t } }
{
    let own = with_triangle(unbounded(), t);
    Ranges {
        low: indices(b, own.min),
        high: indices(b, own.max),
    }
}

// Whether the triangle is a candidate for a point with these indices.
#[tactic(auto, unfolding(filling::specs::Inside::candidate, filling::specs::Inside::low_of, filling::specs::Inside::high_of))]
pub fn candidate(b: Bounds, at: Indices, t: Triangle) -> bool
    ensures { result ≡ def.candidate b at t }
{
    let own = ranges_of(b, t);
    reached(at, own.low, own.high)
}
