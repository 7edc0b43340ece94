// The visit of a box, z outermost, x innermost: the sums of its points, their order words.
// Runs of records give them, whichever form the lent words have.
#![tactic(auto)]

pub mod ordered;

ghost use Rattle.std.specs.Prelude.{◌≡◌, ◌+◌, ◌≤◌, ◌<◌, length, false};
ghost use Rattle.std.specs.Float.{binary32};
ghost use Rattle.std.specs.Float.Ieee.{of_bits, nan_bits};
ghost use Rattle.rym1.specs.Bytes.{word32};
ghost use Rattle.rym1.specs.File.{count};
ghost use Rattle.rym1.specs.Cells.{look};
ghost use Rattle.rtm1.specs.Boxes.{Within};
ghost use Rattle.rtm1.specs.Visit.{moved, shifted, with, total, visit};
ghost use Rattle.rtm1.specs.Tree.{sums_of};
ghost use Rattle.runs.specs.Walk.{points_of};

use points::file::PointFile;
use rtm1::{Cells, Sums};
use runs::Lookup;
use runs::walk::Stretch;

// A moment with one more point: coordinate × mass.
#[tactic(auto, unfolding(rtm1::specs::Visit::moved))]
fn moment(m: [f64; 3], x: u32, y: u32, z: u32, mass: f64) -> [f64; 3]
    ensures { result ≡ moved m x y z mass }
{
    [
        m[0] + x as f64 * mass,
        m[1] + y as f64 * mass,
        m[2] + z as f64 * mass,
    ]
}

// The constant moment with one more point: plain coordinate. As `moment` of mass 1 it would be no plainer, and multiply what it adds.
#[tactic(auto, unfolding(rtm1::specs::Visit::shifted))]
fn shift(m: [f64; 3], x: u32, y: u32, z: u32) -> [f64; 3]
    ensures { result ≡ shifted m x y z }
{
    [m[0] + x as f64, m[1] + y as f64, m[2] + z as f64]
}

// The sums with one more point. Its index plays no part.
fn with_point(s: Sums, x: u32, y: u32, z: u32, cauchy: f64, elliptic: f64) -> Sums
    requires { s.count < 4294967295 }
    ensures { result ≡ with s (record { x = x; y = y; z = z; index = 0; cauchy = cauchy; elliptic = elliptic }) }
{
    let cauchy_before = s.cauchy_moment;
    let elliptic_before = s.elliptic_moment;
    let constant_before = s.constant_moment;
    let cauchy_moment = moment(cauchy_before, x, y, z, cauchy);
    let elliptic_moment = moment(elliptic_before, x, y, z, elliptic);
    let constant_moment = shift(constant_before, x, y, z);
    Sums {
        count: s.count + 1,
        cauchy: s.cauchy + cauchy,
        elliptic: s.elliptic + elliptic,
        cauchy_moment,
        elliptic_moment,
        constant_moment,
    }
}

// A mass of the point file, as a binary64. It is finite, so that no NaN need be told apart: `widen`'s test took seven of some thirty instructions a point (docs/DECISIONS.md 84).
fn mass_at(file: &[u8], at: usize) -> f64
    requires { (at + 4 ≤ length file.now) × (nan_bits binary32 (word32 file.now at) ≡ false) }
    ensures { result ≡ of_bits binary32 (word32 file.now at) }
{
    f32::from_bits(binary::u32_at(file, at)) as f64
}

// The sums with a stretch of records.
fn add_records(file: PointFile<'_>, s: Sums, r: Stretch) -> Sums
    requires { (r.index + r.count ≤ count file.bytes.now) × (s.count + r.count < 4294967296) }
    ensures { result ≡ total s (points_of file.entry.bytes.now r) }
{
    let mut t = s;
    // By how many, so that of a stretch of one record the compiler sees that it is one.
    for k in 0..r.count {
        let at = 64 + 16 * (r.index + k) as usize;
        let x = binary::u16_at(file.bytes, at);
        let cauchy = mass_at(file.bytes, at + 8);
        let elliptic = mass_at(file.bytes, at + 12);
        t = with_point(t, x, r.y, r.z, cauchy, elliptic);
    }
    t
}

// The sums of a box.
pub fn sums_of(lookup: &Lookup<'_>, b: Cells) -> Sums
    requires { Within lookup.now.g b }
    ensures value { result ≡ sums_of (look lookup.now.file.bytes.now) lookup.now.g b }
    ensures counted { result.count ≡ length (visit (look lookup.now.file.bytes.now) lookup.now.g b) }
{
    let mut t = Sums::default();
    for r in lookup.runs(b) {
        t = add_records(lookup.file, t, r);
    }
    t
}
