// Little-endian numbers in a slice of bytes (binary.rs, and the closures u16_at and u32_at of mascon_tree.rs). A slice and a place in it, here and in what reads by these: of a part cut out its
// length would have to be shown at every read. Three sizes, each by the library's reader and writer of its type.
#![tactic(auto)]

ghost use Rattle.std.specs.Prelude.{◌≡◌, false, ◌+◌, ◌*◌, ◌≤◌, ◌<◌, length};
ghost use Rattle.std.specs.Float.{binary64};
ghost use Rattle.std.specs.Float.Ieee.{of_bits, nan_bits};
ghost use Rattle.binary.specs.Words.{Narrowing};
ghost use Rattle.rym1.specs.Bytes.{word16, word32, word64, le32, le64, words_bytes, splice};

use std::num::f32_to_bits_with_nan;

pub fn u16_at(s: &[u8], at: usize) -> u32
    requires { at + 2 ≤ length s.now }
    ensures { (result ≡ word16 s.now at) × (result < 65536) }
{
    u16::from_le_bytes([s[at], s[at + 1]]) as u32
}

pub fn u32_at(s: &[u8], at: usize) -> u32
    requires { at + 4 ≤ length s.now }
    ensures { result ≡ word32 s.now at }
{
    u32::from_le_bytes([s[at], s[at + 1], s[at + 2], s[at + 3]])
}

pub fn u64_at(s: &[u8], at: usize) -> u64
    requires { at + 8 ≤ length s.now }
    ensures { result ≡ word64 s.now at }
{
    u64::from_le_bytes([
        s[at],
        s[at + 1],
        s[at + 2],
        s[at + 3],
        s[at + 4],
        s[at + 5],
        s[at + 6],
        s[at + 7],
    ])
}

// The number of a binary64's pattern. Each NaN's pattern gives the NaN.
pub fn f64_at(s: &[u8], at: usize) -> f64
    requires { at + 8 ≤ length s.now }
    ensures { result ≡ of_bits binary64 (word64 s.now at) }
{
    std::num::f64_from_bits_with_nan(u64_at(s, at))
}

// The same of a pattern that is no NaN's. `f64_at`'s test for a NaN would cost a filling a third more time (docs/BENCHMARKS.md).
pub fn number_at(s: &[u8], at: usize) -> f64
    requires { (at + 8 ≤ length s.now) × (nan_bits binary64 (word64 s.now at) ≡ false) }
    ensures { result ≡ of_bits binary64 (word64 s.now at) }
{
    f64::from_bits(u64_at(s, at))
}

pub fn out_u32(s: &mut [u8], at: usize, value: u32)
    requires { at + 4 ≤ length s.old }
    ensures { s.new ≡ splice s.old at (le32 value) }
{
    s[at..at + 4].copy_from_slice(&value.to_le_bytes());
}

pub fn out_u64(s: &mut [u8], at: usize, value: u64)
    requires { at + 8 ≤ length s.old }
    ensures { s.new ≡ splice s.old at (le64 value) }
{
    s[at..at + 8].copy_from_slice(&value.to_le_bytes());
}

// The words of some numbers; none where one is too large, and up to that one they are written. let .. else: docs/DECISIONS.md 97.
pub fn narrow_all(xs: &[f64], words: &mut [u32]) -> Option<()>
    requires { length words.old ≡ length xs.now }
    ensures { Narrowing xs.now result words.new }
{
    for i in 0..xs.len() {
        let Some(v) = float::narrow(xs[i]) else {
            return None;
        };
        words[i] = f32_to_bits_with_nan(v);
    }
    Some(())
}

// Words one behind the other, from a byte on.
pub fn out_words<const N: usize>(out: &mut [u8], at: usize, words: [u32; N])
    requires { at + 4 * N ≤ length out.old }
    ensures { out.new ≡ splice out.old at (words_bytes words.entry) }
{
    for i in 0..N {
        out_u32(out, at + 4 * i, words[i]);
    }
}
