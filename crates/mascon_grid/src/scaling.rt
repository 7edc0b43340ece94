// The masses scaled in place, as binary32 products, and judged; the header and its floats.
ghost use Rattle.std.specs.Prelude.{◌≡◌, true, false, is_some, ◌+◌, ◌*◌, ◌≤◌, length, MatchOption};
ghost use Rattle.float.specs.Narrow.{float_words};
ghost use Rattle.rym1.specs.Bytes.{splice};
ghost use Rattle.rym1.specs.File.{points_at, points_bytes};
ghost use Rattle.filling.specs.Fill.{product, scale_of, fine, masses_finite};
ghost use Rattle.mascon_grid.specs.Scaled.{scaled_point, scaled_points, header_floats, header_around, written_points, all_fine};

use filling::Frame;
use float::number::abs;
use points::judge::is_finite;
use points::records::{out_point, point_at};
use rym1::Point;
use std::num::{f32_from_bits_with_nan, f32_to_bits_with_nan};
use visit::Found;

// What the masses of a raw sum are scaled by.
#[tactic(auto, unfolding(filling::specs::Fill::scale_of))]
pub fn scale_of(target: f64, sum: f64) -> f64
    ensures { result ≡ scale_of target sum }
{
    if target > 0.0 && abs(sum) > 1e-30 {
        target / sum
    } else {
        1.0
    }
}

// The binary32 product of two patterns.
#[tactic(auto, unfolding(filling::specs::Fill::product))]
fn product(a: u32, b: u32) -> u32
    ensures { result ≡ product a b }
{
    f32_to_bits_with_nan(f32_from_bits_with_nan(a) * f32_from_bits_with_nan(b))
}

// The record's masses scaled by the patterns k and l.
#[tactic(auto, unfolding(crate::specs::Scaled::scaled_point))]
fn scaled_point(p: Point, k: u32, l: u32) -> Point
    ensures { result ≡ scaled_point k l p }
{
    Point {
        cauchy: product(p.cauchy, k),
        elliptic: product(p.elliptic, l),
        ..p
    }
}

// Whether both masses of the record are finite.
fn are_fine(p: Point) -> bool
    ensures { result ≡ fine p }
{
    is_finite(p.cauchy) && is_finite(p.elliptic)
}

// Scales the first n records, not all that `out` has room for, up to the first that has a mass that is not finite then: that one is not written. None where there is one.
pub fn scale_masses(out: &mut [u8], n: u32, k: u32, l: u32) -> Option<()>
    requires { 64 + 16 * n ≤ length out.old }
    ensures { (is_some result ≡ masses_finite (scaled_points k l (points_at out.old 64 n)))
        × (is_some result ≡ true → out.new ≡ splice out.old 64 (points_bytes (scaled_points k l (points_at out.old 64 n)))) }
{
    for i in 0..n {
        let at = 64 + 16 * (i as usize);
        let p = scaled_point(point_at(out, at), k, l);
        if !are_fine(p) {
            return None;
        }
        out_point(out, at, p);
    }
    Some(())
}

// The floats of a filled file's header, in its order.
#[tactic(auto, unfolding(crate::specs::Scaled::header_floats))]
pub fn header_floats(f: Frame, w: Found, target: f64, density: f64) -> [f64; 11]
    ensures { result ≡ header_floats f w target density }
{
    let scale = scale_of(target, w.cauchy);
    [
        density, f.volume, scale, f.min.x, f.min.y, f.min.z, f.max.x, f.max.y, f.max.z, w.cauchy,
        w.elliptic,
    ]
}

// Scales the finds' records, which stand in `out` from 64 on; the words of the header's floats, or none where a float is too large.
pub fn scale_records(
    out: &mut [u8],
    f: Frame,
    w: Found,
    target: f64,
    density: f64,
) -> Option<[u32; 11]>
    requires { 64 + 16 * w.count ≤ length out.old }
    ensures { MatchOption
        result
        (all_fine f w target density out.old ≡ false)
        (λ words.
        (all_fine f w target density out.old ≡ true)
        × (words ≡ float_words (header_floats f w target density))
        × (out.new ≡ splice out.old 64 (points_bytes (written_points w target out.old)))) }
{
    let Some(l) = float::narrow(scale_of(target, w.elliptic)) else {
        return None;
    };
    let floats = header_floats(f, w, target, density);
    let mut words = [0; 11];
    binary::narrow_all(&floats, &mut words)?;
    // the header has the Cauchy scale
    scale_masses(out, w.count, words[2], f32_to_bits_with_nan(l))?;
    Some(words)
}

// The header, with the words of its floats.
#[tactic(auto, unfolding(crate::specs::Scaled::header_around))]
pub fn header_of(g: u32, count: u32, w: [u32; 11]) -> [u32; 16]
    ensures { result ≡ header_around g count w }
{
    [
        0x314d5952, 1, g, count, w[0], w[1], w[2], 0, w[3], w[4], w[5], w[6], w[7], w[8], w[9],
        w[10],
    ]
}
