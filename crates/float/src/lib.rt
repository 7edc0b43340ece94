// The float leaves: narrowing, finite tests and the index of a scaled coordinate, worked out from the bits; the magnitude, and the lesser and the greater of two.
#![tactic(auto)]

pub mod axis;
pub mod number;
pub mod pattern;

ghost use Rattle.std.specs.Prelude.{◌≡◌, ◌^◌, ◌<◌};
ghost use Rattle.std.specs.Float.Ieee.Nearest.{closest};
ghost use Rattle.float.specs.Narrow.{narrow_finite, narrow64, Told};

use pattern::{Binary32, is_finite};

// Narrowing and the floor are worked out from the bits, and not by `as f32` and `as u32`, as the project's rules have it (docs/DECISIONS.md 4).

// m / 2^d to the nearest whole number, and a tie to the even one.
fn nearest_shift(m: u64, d: u64) -> u64
    requires { (0 < d) × (d < 64) }
    ensures { result ≡ closest m (2 ^ d) }
{
    let q: u64 = m >> d;
    let rest: u64 = m & ((1u64 << d) - 1);
    let half: u64 = 1u64 << (d - 1);
    if rest < half {
        return q;
    }
    if half < rest {
        return q + 1;
    }
    q + q % 2
}

// The magnitude's bits of a binary32, for a finite binary64's exponent field x and fraction t.
fn narrow_finite(x: u64, t: u64) -> u64
    requires { (x < 2047) × (t < 2 ^ 52) }
    ensures { result ≡ narrow_finite 11 52 8 23 x t }
{
    // below 2^-1022, which is far under half of the smallest binary32, 2^-149
    if x == 0 {
        return 0;
    }
    let m: u64 = t + 0x10_0000_0000_0000;
    if x <= 897 {
        // under the normal binary32s: a digit more is dropped for each binade
        let d: u64 = 926 - x;
        if d < 54 {
            return nearest_shift(m, d);
        }
        return 0;
    }
    // the leading digit, and a carry, go into the exponent's field by themselves
    let sum: u64 = (x - 897) * 0x80_0000 + nearest_shift(m, 29);
    if sum < 0x7f80_0000 {
        return sum;
    }
    0x7f80_0000
}

// A binary64's pattern, a NaN's too, to the pattern of the nearest binary32.
fn narrow_bits(b: u64) -> u32
    ensures { result ≡ narrow64 b }
{
    let sign: u64 = (b >> 63) * 0x8000_0000;
    let x: u64 = (b >> 52) & 0x7ff;
    let t: u64 = b & 0xf_ffff_ffff_ffff;
    if x == 2047 {
        if t == 0 {
            return (sign + 0x7f80_0000) as u32;
        }
        return 0x7fc0_0000;
    }
    (sign + narrow_finite(x, t)) as u32
}

// The binary32 nearest to x; none where x is too large for one, or a NaN. Its pattern is then the word that is written.
pub fn narrow(x: f64) -> Option<f32>
    ensures { Told x result }
{
    if x.is_nan() {
        return None;
    }
    let pattern = narrow_bits(f64::to_bits(x));
    if !is_finite::<Binary32>(pattern as u64) {
        return None;
    }
    Some(f32::from_bits(pattern))
}
