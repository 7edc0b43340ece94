// A whole row of points: the crossings of all of them from one reading of the row's list.
#![tactic(auto)]

ghost use Rattle.std.specs.Prelude.{◌≡◌, true, cond, ◌++◌, ℕ, ◌*◌, ◌+◌, ◌/◌, ◌≤◌, ◌<◌, length, get_or, leb};
ghost use Rattle.filling.specs.declared.Crossing.TheVariants.{Miss};
ghost use Rattle.filling.specs.Lists.{mesh as mesh_of, triangle, good_triangle};
ghost use Rattle.filling.specs.Ray.{ray};
ghost use Rattle.float.specs.Axis.{axis_index};
ghost use Rattle.filling.specs.Inside.{high_of, listed, scaled, odd_rest, yes, is_inside};
ghost use Rattle.filling.specs.Rows as def;
ghost use Rattle.row.specs.Row as note;

use accelerator::{indices, ranges_of};
use counting::AXIS;
use filling::{Bounds, Crossing, Triangle, Vec3};
use inside::crossings::is_odd;
use model::{TriangleAt, vector_up_to};
use ray::quick::skips_row;
use ray::ray_triangle_t;
use rows::Lists;

// How many points a row has at most: the greatest grid.
pub const MOST_POINTS: usize = 256;

// The points of a row: y and z, each one's x and x index in the box b; near: all are within the bounds of a point, where the short test may be used; it has no value beside it.
// xs and ix stay two slices: the definitions read the xs as a list of its own, and a slice of pairs would have to be mapped in each.
#[derive(Clone, Copy)]
pub struct Row<'a> {
    pub b: Bounds,
    pub y: f64,
    pub z: f64,
    pub near: bool,
    pub xs: &'a [f64],
    pub ix: &'a [u32],
    pub ghost within: { near ≡ true → note.Near y z xs.now },
    pub ghost indexed: { note.Indexed b xs.now ix.now },
    pub ghost all: { length xs.now ≤ length ix.now },
}

// Where the ray from o crosses the triangle, whose upper x index is `top`; i: the x index of o.
fn crossing_up_to(i: u32, top: u32, o: Vec3, t: Triangle) -> Crossing
    ensures { result ≡ cond (leb i top) (ray o t) Miss }
{
    if i <= top {
        ray_triangle_t(o, t)
    } else {
        Crossing::Miss
    }
}

// Stores a crossing behind the m that its region has, and says how many it has now: m moves only where there is one, so no `for` and no zip counts it.
fn store(c: Crossing, fl: &mut [f64], spot: usize, m: usize) -> usize
    requires { spot + m < length fl.old }
    ensures stored { fl.new ≡ note.stored fl.old (spot + m) c }
    ensures count { result ≡ m + length (listed c) }
{
    let Crossing::At(t) = c else {
        return m;
    };
    fl[spot + m] = t;
    m + 1
}

// One triangle at every point of the row: the crossing goes to the region of each. `counts` says how many each region of `fl` has, of at most `len`.
// They stay two slices and a length: of a struct of two `&mut` each contract would also have to say that both references stay the same.
fn at_points(top: u32, t: Triangle, row: &Row, fl: &mut [f64], counts: &mut [u64], len: usize)
    requires counters { length row.now.xs.now ≤ length counts.old }
    requires room { length row.now.xs.now * len ≤ length fl.old }
    requires free { (q : ℕ) → q < length row.now.xs.now → get_or counts.old q 0 < len }
    ensures few { (q : ℕ) → q < length row.now.xs.now → get_or counts.new q 0 ≤ get_or counts.old q 0 + 1 }
    ensures regions { (q : ℕ) → q < length row.now.xs.now
        → note.region fl.new counts.new len q
        ≡ note.region fl.old counts.old len q ++ listed (note.crossing_up_to top t row.now.y row.now.z row.now.xs.now row.now.ix.now q) }
{
    for q in 0..row.xs.len() {
        let o = Vec3 {
            x: row.xs[q],
            y: row.y,
            z: row.z,
        };
        let c = crossing_up_to(row.ix[q], top, o, t);
        let r = store(c, fl, q * len, counts[q] as usize);
        counts[q] = r as u64;
    }
}

// One entry of the list: most are passed over at once.
fn entry(at: TriangleAt, row: &Row, fl: &mut [f64], counts: &mut [u64], len: usize)
    requires counters { length row.now.xs.now ≤ length counts.old }
    requires room { length row.now.xs.now * len ≤ length fl.old }
    requires free { (q : ℕ) → q < length row.now.xs.now → get_or counts.old q 0 < len }
    ensures few { (q : ℕ) → q < length row.now.xs.now → get_or counts.new q 0 ≤ get_or counts.old q 0 + 1 }
    ensures regions { let t = triangle at.entry.s.now at.entry.at in (q : ℕ) → q < length row.now.xs.now
        → note.region fl.new counts.new len q
        ≡ note.region fl.old counts.old len q ++ listed (note.crossing_up_to (high_of row.now.b t).i t row.now.y row.now.z row.now.xs.now row.now.ix.now q) }
{
    if skips_row(at, row.y, row.z, row.near) {
        return;
    }
    let t = at.read();
    at_points(ranges_of(row.b, t).high.i, t, row, fl, counts, len);
}

// The crossings of all points of the row, each in its region, from one reading of the row's list; how many entries were read.
pub fn pass(s: &[u8], row: &Row, list: &[u32], fl: &mut [f64], counts: &mut [u64]) -> usize
    requires good { (t : ℕ) → t < length list.now
        → (72 * get_or list.now t 0 + 72 ≤ length s.now) × (good_triangle (def.triangle_of s.now (get_or list.now t 0)) ≡ true) }
    requires counters { length row.now.xs.now ≤ length counts.old }
    requires room { length row.now.xs.now * length list.now ≤ length fl.old }
    requires zero { (q : ℕ) → get_or counts.old q 0 ≡ 0 }
    ensures read { result ≡ length list.now }
    ensures floats { length fl.new ≡ length fl.old }
    ensures counters { length counts.new ≡ length counts.old }
    ensures few { (q : ℕ) → q < length row.now.xs.now → get_or counts.new q 0 ≤ length list.now }
    ensures regions { (q : ℕ) → q < length row.now.xs.now
        → note.region fl.new counts.new (length list.now) q
        ≡ note.crossings_at s.now row.now.b row.now.y row.now.z row.now.xs.now list.now q }
{
    for i in list {
        let at = TriangleAt {
            s,
            at: 72 * *i as usize,
        };
        entry(at, row, fl, counts, list.len());
    }
    list.len()
}

// 1 where an odd number of the crossings is retained.
fn answer(h: &mut [f64]) -> u8
    ensures { result ≡ yes (odd_rest h.old) }
{
    is_odd(h) as u8
}

// The answers of as many points as `out` has bytes, from the regions of their crossings, which are sorted in their place.
pub fn answers(len: usize, counts: &[u64], fl: &mut [f64], out: &mut [u8])
    requires counters { length out.old ≤ length counts.now }
    requires room { length out.old * len ≤ length fl.old }
    requires few { (q : ℕ) → q < length out.old → get_or counts.now q 0 ≤ len }
    ensures bytes { length out.new ≡ length out.old }
    ensures answered { (q : ℕ) → q < length out.old → get_or out.new q 0 ≡ yes (odd_rest (note.region fl.old counts.now len q)) }
{
    for q in 0..out.len() {
        let a = q * len;
        let e = a + counts[q] as usize;
        out[q] = answer(&mut fl[a..e]);
    }
}

// The answers of a row's points, whose list is `list`; how many entries were read.
pub fn row_answers(s: &[u8], row: &Row, list: &[u32], fl: &mut [f64], out: &mut [u8]) -> usize
    requires good { (t : ℕ) → t < length list.now
        → (72 * get_or list.now t 0 + 72 ≤ length s.now) × (good_triangle (def.triangle_of s.now (get_or list.now t 0)) ≡ true) }
    requires list_is { list.now ≡ def.row_list s.now row.now.b (length s.now / 72) (def.row_pair row.now.b row.now.y row.now.z) }
    requires points { length row.now.xs.now ≤ MOST_POINTS }
    requires room { length row.now.xs.now * length list.now ≤ length fl.old }
    requires bytes { length row.now.xs.now ≤ length out.old }
    ensures read { result ≡ length list.now }
    ensures answered { (q : ℕ) → q < length row.now.xs.now
        → get_or out.new q 0 ≡ yes (is_inside row.now.b (mesh_of s.now) (note.point_of row.now.y row.now.z row.now.xs.now q)) }
    ensures rest { (q : ℕ) → length row.now.xs.now ≤ q → get_or out.new q 0 ≡ get_or out.old q 0 }
{
    let mut counts = [0u64; MOST_POINTS];
    let read = pass(s, row, list, fl, &mut counts);
    answers(list.len(), &counts, fl, &mut out[..row.xs.len()]);
    read
}

// The pair of a row.
pub fn row_pair(b: Bounds, y: f64, z: f64) -> usize
    ensures { result ≡ def.row_pair b y z }
{
    let at = indices(b, Vec3 { x: y, y, z });
    (at.k as usize) * AXIS + (at.j as usize)
}

// The x index of a point.
#[tactic(auto, unfolding(filling::specs::Inside::indices))]
pub fn x_index(b: Bounds, x: f64) -> u32
    ensures { result ≡ axis_index (scaled b.min.x b.max.x x) }
{
    indices(b, Vec3 { x, y: x, z: x }).i
}

// The answers of a row's points, the list read out of all lists.
#[tactic(auto, using(crate::proofs::Laws::listed_good))]
pub fn listed_answers(lists: &Lists, row: &Row, fl: &mut [f64], out: &mut [u8]) -> usize
    requires same_box { row.now.b ≡ lists.now.b }
    requires points { length row.now.xs.now ≤ MOST_POINTS }
    requires room { length row.now.xs.now * length (def.row_list lists.now.mesh.bytes.now lists.now.b (length lists.now.mesh.bytes.now / 72) (def.row_pair lists.now.b row.now.y row.now.z))
        ≤ length fl.old }
    requires bytes { length row.now.xs.now ≤ length out.old }
    ensures read { result ≡ length (def.row_list lists.now.mesh.bytes.now lists.now.b (length lists.now.mesh.bytes.now / 72) (def.row_pair lists.now.b row.now.y row.now.z)) }
    ensures answered { (q : ℕ) → q < length row.now.xs.now
        → get_or out.new q 0 ≡ yes (is_inside lists.now.b (mesh_of lists.now.mesh.bytes.now) (note.point_of row.now.y row.now.z row.now.xs.now q)) }
    ensures rest { (q : ℕ) → length row.now.xs.now ≤ q → get_or out.new q 0 ≡ get_or out.old q 0 }
{
    let list = lists.list_of(row_pair(lists.b, row.y, row.z));
    row_answers(lists.mesh.bytes, row, list, fl, out)
}

// Whether o lies inside the mesh, by its row's list.
#[tactic(auto, using(crate::proofs::Laws::list_few))]
pub fn is_inside_listed(lists: &Lists, o: Vec3, floats: &mut [f64]) -> bool
    requires { length lists.now.mesh.bytes.now / 72 ≤ length floats.old }
    ensures { result ≡ is_inside lists.now.b (mesh_of lists.now.mesh.bytes.now) o }
{
    let row = Row {
        b: lists.b,
        y: o.y,
        z: o.z,
        near: vector_up_to(4e6, o),
        xs: &[o.x],
        ix: &[x_index(lists.b, o.x)],
    };
    let mut answer = [0u8; 1];
    listed_answers(lists, &row, floats, &mut answer);
    answer[0] == 1
}
