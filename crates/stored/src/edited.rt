// A case of edit.bin: a history of calls. Words: lengths of the file's buffer and of the journal, and how many calls. From byte 64 on the
// buffer, from 1088 the journal, from 1344 the calls, six words each, from 1920 the answers, from 2016 and 3040 both buffers afterwards.
ghost use Rattle.std.specs.Prelude.{◌+◌, ◌≤◌, length};
ghost use Rattle.std.proofs.Common.{lit≤};

use crate::Case;
use crate::parts::{BYTE, WORD, are_same_words, copy_words};
use number::answer_number;
use std::num::f32_from_bits_with_nan;

#[derive(Drop)]
pub struct Edit;

// The call at a byte: its kind, a number of the stored format (1 put, 2 remove, any other undo), coordinates and masses.
fn act(case: &[u8], at: usize, file: &mut [u8], journal: &mut [u32]) -> u64
    requires { at + 24 ≤ length case.now }
{
    let x = binary::u32_at(case, at + 4);
    let y = binary::u32_at(case, at + 8);
    let z = binary::u32_at(case, at + 12);
    let cauchy = f32_from_bits_with_nan(binary::u32_at(case, at + 16));
    let elliptic = f32_from_bits_with_nan(binary::u32_at(case, at + 20));
    answer_number(match binary::u32_at(case, at) {
        1 => edits::put(file, journal, x, y, z, cauchy, elliptic),
        2 => edits::remove(file, journal, x, y, z),
        _ => edits::undo(file, journal),
    })
}

// Makes the case's calls one after the other.
fn is_same_history(case: &[u8], calls: usize, file: &mut [u8], journal: &mut [u32]) -> bool
    requires whole { (8192 ≤ length case.now) × (calls ≤ 24) }
    requires few { (length file.old ≤ 1024) × (length journal.old ≤ 64) }
{
    let n = file.len();
    file.copy_from_slice(&case[64..64 + n]);
    copy_words(journal, case, 1088);
    for i in 0..calls {
        let answer = act(case, 1344 + 24 * i, file, journal);
        if answer != binary::u32_at(case, 1920 + 4 * i) as u64 {
            return false;
        }
    }
    file[..] == case[2016..2016 + n] && are_same_words(journal, case, 3040)
}

impl Case for Edit {
    ghost SIZE = { 8192 };

    const SIZE: usize = 8192;

    ghost short = { lit≤ tt };

    fn is_same_whole(case: &[u8]) -> bool {
        let file = binary::u32_at(case, 0) as usize;
        let journal = binary::u32_at(case, 4) as usize;
        let calls = binary::u32_at(case, 8) as usize;
        let mut image = [BYTE; 1024];
        let mut entries = [WORD; 64];
        file <= 1024
            && journal <= 64
            && calls <= 24
            && is_same_history(case, calls, &mut image[..file], &mut entries[..journal])
    }
}
