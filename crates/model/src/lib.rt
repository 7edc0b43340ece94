// Vectors and triangles (model.rs), and the mesh that is lent as little-endian bytes.
#![tactic(auto)]

ghost use Rattle.std.specs.Prelude.{◌≡◌, ℕ, ◌+◌, ◌*◌, ◌/◌, ◌≤◌, ◌<◌, Bool, true, List, length};
ghost use Rattle.std.proofs.Common.{rules};
ghost use Rattle.filling.specs.Vector.{vec, sub, cross, dot};
ghost use Rattle.filling.specs.Lists.{vec3, triangle, mesh, up_to, vector_up_to, good_triangle, good_triangles, mesh_wrong};
ghost use Rattle.model.specs.Entries.{all_good, list_wrong};

use filling::{Triangle, Vec3};
use float::number::abs;

#[tactic(auto, unfolding(filling::specs::Vector::sub))]
pub fn sub(a: Vec3, b: Vec3) -> Vec3
    ensures { result ≡ sub a b }
{
    Vec3 {
        x: a.x - b.x,
        y: a.y - b.y,
        z: a.z - b.z,
    }
}

#[tactic(auto, unfolding(filling::specs::Vector::cross))]
pub fn cross(a: Vec3, b: Vec3) -> Vec3
    ensures { result ≡ cross a b }
{
    Vec3 {
        x: a.y * b.z - a.z * b.y,
        y: a.z * b.x - a.x * b.z,
        z: a.x * b.y - a.y * b.x,
    }
}

#[tactic(auto, unfolding(filling::specs::Vector::dot))]
pub fn dot(a: Vec3, b: Vec3) -> f64
    ensures { result ≡ dot a b }
{
    a.x * b.x + a.y * b.y + a.z * b.z
}

// The vector with one number on each axis.
pub fn all_axes(v: f64) -> Vec3
    ensures { result ≡ vec v v v }
{
    Vec3 { x: v, y: v, z: v }
}

// The vector whose coordinates f makes of those of a and b.
pub fn each_axis<F: Fn(f64, f64) -> f64>(f: F, a: Vec3, b: Vec3) -> Vec3
    requires { F.IsAlwaysCallable f }
    ensures x { F.post f a.x b.x result.x }
    ensures y { F.post f a.y b.y result.y }
    ensures z { F.post f a.z b.z result.z }
{
    Vec3 {
        x: f(a.x, b.x),
        y: f(a.y, b.y),
        z: f(a.z, b.z),
    }
}

// ---- entries

// The vector that starts at byte `at`.
#[tactic(auto, unfolding(filling::specs::Lists::vec3, filling::specs::Lists::float))]
pub fn vec3_at(s: &[u8], at: usize) -> Vec3
    requires { at + 24 ≤ length s.now }
    ensures { result ≡ vec3 s.now at }
{
    let x = binary::f64_at(s, at);
    let y = binary::f64_at(s, at + 8);
    let z = binary::f64_at(s, at + 16);
    Vec3 { x, y, z }
}

// The triangle that starts at byte `at`.
#[tactic(auto, unfolding(filling::specs::Lists::triangle))]
pub fn triangle_at(s: &[u8], at: usize) -> Triangle
    requires { at + 72 ≤ length s.now }
    ensures { result ≡ triangle s.now at }
{
    let a = vec3_at(s, at);
    let b = vec3_at(s, at + 24);
    let c = vec3_at(s, at + 48);
    Triangle { a, b, c }
}

// ---- bounds

// A magnitude up to the limit, so no NaN and no infinity.
#[tactic(auto, unfolding(filling::specs::Lists::up_to))]
pub fn up_to(limit: f64, x: f64) -> bool
    ensures { result ≡ up_to limit x }
{
    abs(x) <= limit
}

#[tactic(auto, unfolding(filling::specs::Lists::vector_up_to))]
pub fn vector_up_to(limit: f64, p: Vec3) -> bool
    ensures { result ≡ vector_up_to limit p }
{
    up_to(limit, p.x) && up_to(limit, p.y) && up_to(limit, p.z)
}

#[tactic(auto, unfolding(filling::specs::Lists::good_triangle))]
fn good_triangle(t: Triangle) -> bool
    ensures { result ≡ good_triangle t }
{
    vector_up_to(1e6, t.a) && vector_up_to(1e6, t.b) && vector_up_to(1e6, t.c)
}

// ---- lists of entries

// What a list's bytes hold one behind the other: how many bytes an entry has and the longest list, and whether the entry at a byte is within bounds.
pub trait Entries {
    const SIZE: usize;

    const MOST: usize;

    ghost SIZE: { ℕ };

    ghost MOST: { ℕ };

    ghost good: { List ℕ → ℕ → Bool };

    fn is_good(s: &[u8], at: usize) -> bool
        requires { at + SIZE ≤ length s.now }
        ensures { result ≡ good s.now at };

    ghost some: { 0 < SIZE };
}

// Whether the first n entries are within bounds.
#[tactic(auto, using(crate::proofs::AllGood::all_more), unfolding(crate::specs::Entries::all_good))]
fn all_good<E: Entries>(s: &[u8], n: usize) -> bool
    requires { E.SIZE * n ≤ length s.now }
    ensures { result ≡ all_good E.SIZE (E.good s.now) 0 n }
{
    for i in 0..n {
        if !E::is_good(s, E::SIZE * i) {
            return false;
        }
    }
    true
}

// Whether a list ends inside an entry, is too long or has an entry outside its bounds.
#[tactic(auto, unfolding(crate::specs::Entries::list_wrong))]
pub fn list_wrong<E: Entries>(s: &[u8]) -> bool
    ensures { result ≡ list_wrong E.SIZE E.MOST (E.good s.now) s.now }
{
    s.len() % E::SIZE != 0 || E::MOST < s.len() || !all_good::<E>(s, s.len() / E::SIZE)
}

// The triangles of a mesh.
struct Triangles;

impl Entries for Triangles {
    const SIZE: usize = 72;

    const MOST: usize = 75497472;

    ghost SIZE = { 72 };

    ghost MOST = { 75497472 };

    ghost good = { λ s at. good_triangle (triangle s at) };

    fn is_good(s: &[u8], at: usize) -> bool {
        good_triangle(triangle_at(s, at))
    }

    ghost some = { Prim.search rules };
}

// 17, of a mesh.
#[tactic(auto, using(crate::proofs::AllGood::triangles_good), unfolding(filling::specs::Lists::mesh_wrong, filling::specs::Lists::mesh, crate::specs::Entries::list_wrong))]
pub fn mesh_wrong(s: &[u8]) -> bool
    ensures { result ≡ mesh_wrong s.now }
{
    s.len() == 0 || list_wrong::<Triangles>(s)
}

// A mesh within bounds, as bytes.
#[derive(Clone, Copy)]
pub struct Mesh<'a> {
    pub bytes: &'a [u8],
    ghost good: { good_triangles (mesh bytes.now) ≡ true },
}

// A triangle within bounds, which starts at byte `at` of s.
#[derive(Clone, Copy)]
pub struct TriangleAt<'a> {
    pub s: &'a [u8],
    pub at: usize,
    pub ghost inside: { at + 72 ≤ length s.now },
    pub ghost good: { good_triangle (triangle s.now at) ≡ true },
}

impl<'a> Mesh<'a> {
    // How many triangles it has.
    pub fn number(&self) -> usize
        ensures { result ≡ length self.now.bytes.now / 72 }
    {
        self.bytes.len() / 72
    }

    // The triangle i.
    #[tactic(auto, using(filling::proofs::Rows::good_at), unfolding(filling::specs::Rows::triangle_of))]
    pub fn triangle(&self, i: usize) -> TriangleAt<'a>
        requires { i < length self.now.bytes.now / 72 }
        ensures bytes { result.s.now ≡ self.now.bytes.now }
        ensures place { result.at ≡ 72 * i }
    {
        TriangleAt {
            s: self.bytes,
            at: 72 * i,
        }
    }
}

impl TriangleAt<'_> {
    // Its corners.
    pub fn read(self) -> Triangle
        ensures { result ≡ triangle self.entry.s.now self.entry.at }
    {
        triangle_at(self.s, self.at)
    }
}
