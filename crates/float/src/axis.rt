// The index of a scaled coordinate (the closure `axis_index` of inside.rs, whose `floor` is worked out from the bits here).
ghost use Rattle.std.specs.Prelude.{◌≡◌};
ghost use Rattle.std.specs.Float.{binary64};
ghost use Rattle.std.specs.Float.Ieee.{of_bits};
ghost use Rattle.float.specs.Axis.{axis_index};

// The greatest whole number from 0 to 95 that is not above the float of a pattern, else 0.
fn axis_index_bits(b: u64) -> u32
    ensures { result ≡ axis_index (of_bits binary64 b) }
{
    if b >= 0x7ff0_0000_0000_0001 {
        return 0;
    }
    let x: u64 = b >> 52;
    // below 1
    if x < 1023 {
        return 0;
    }
    // from 128 up
    if 1029 < x {
        return 95;
    }
    // the digits before the point
    let t: u64 = b & 0xf_ffff_ffff_ffff;
    let whole: u64 = (t + 0x10_0000_0000_0000) >> (1075 - x);
    if whole < 95 {
        return whole as u32;
    }
    95
}

// The greatest whole number from 0 to 95 that is not above v, else 0: so 0 for a NaN and for a negative.
pub fn axis_index(v: f64) -> u32
    ensures { result ≡ axis_index v }
{
    if v.is_nan() {
        return 0;
    }
    axis_index_bits(f64::to_bits(v))
}
