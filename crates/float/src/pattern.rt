// Patterns read as floats, and which of them are finite.
ghost use Rattle.std.specs.Prelude.{◌≡◌, ℕ, ◌<◌, ◌*◌};
ghost use Rattle.std.specs.Float.{Format, binary32, binary64};
ghost use Rattle.std.specs.Float.Ieee.{of_bits, nan_bits, hid, ones, top};
ghost use Rattle.std.proofs.Common.{refl, lit<};
ghost use Rattle.std.specs.Float.Ieee.Scale.{finite};

// A format of IEEE 754, by what tells its patterns apart: an infinity's, and the sign's weight.
pub trait Layout {
    ghost format: { Format };

    ghost INFINITY: { ℕ };

    const INFINITY: u64;

    ghost SIGN: { ℕ };

    const SIGN: u64;

    ghost told: { (0 < SIGN) × (INFINITY ≡ ones format * hid format) × (SIGN ≡ top format) };
}

pub struct Binary32;

impl Layout for Binary32 {
    ghost format = { binary32 };

    ghost INFINITY = { 0x7f80_0000 };

    const INFINITY: u64 = 0x7f80_0000;

    ghost SIGN = { 0x8000_0000 };

    const SIGN: u64 = 0x8000_0000;

    ghost told = { (lit< tt, refl, refl) };
}

// No call here reads one; `is_finite` of it was public, as of the other.
pub struct Binary64;

impl Layout for Binary64 {
    ghost format = { binary64 };

    ghost INFINITY = { 0x7ff0_0000_0000_0000 };

    const INFINITY: u64 = 0x7ff0_0000_0000_0000;

    ghost SIGN = { 0x8000_0000_0000_0000 };

    const SIGN: u64 = 0x8000_0000_0000_0000;

    ghost told = { (lit< tt, refl, refl) };
}

// Whether a pattern is a number's: below the infinity's, the sign aside.
pub fn is_finite<F: Layout>(n: u64) -> bool
    ensures { result ≡ finite (of_bits F.format n) }
{
    n % F::SIGN < F::INFINITY
}

// Whether a pattern is a NaN's: above the infinity's, the sign aside.
fn is_nan<F: Layout>(n: u64) -> bool
    ensures { result ≡ nan_bits F.format n }
{
    F::INFINITY < n % F::SIGN
}

// A binary32's pattern as a binary64, which holds each binary32. By the library's two functions, which read and widen, it would be no plainer: each has a test for a NaN and a name for what it gives,
// where this has one.
pub fn widen(n: u32) -> f64
    ensures { result ≡ of_bits binary32 n }
{
    if is_nan::<Binary32>(n as u64) {
        return f64::NAN;
    }
    f32::from_bits(n) as f64
}
