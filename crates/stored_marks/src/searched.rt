// A case of next.bin: searches in one set of marks. Words: how many pairs of words, how many searches. From byte 16 on the pairs, from 144 the
// searches, 16 bytes each: words first, end, the cell that is found, 0xffffffff for none, and how many mark words are read for it.
ghost use Rattle.std.specs.Prelude.{◌+◌, ◌≤◌, length};
ghost use Rattle.std.proofs.Common.{lit≤};

use stored::Case;
use stored::parts::{WORD, copy_words};

#[derive(Drop)]
pub struct Next;

// Makes the search at a byte. One whose end is past the marks is none.
#[tactic(auto, unfolding(rym1::specs::File::groups))]
fn is_same_search(case: &[u8], at: usize, marks: &[u32]) -> bool
    requires { at + 16 ≤ length case.now }
{
    let first = binary::u32_at(case, at);
    let end = binary::u32_at(case, at + 4);
    let cell = binary::u32_at(case, at + 8);
    let read = binary::u32_at(case, at + 12);
    if 16777216 < end || marks.len() < 2 * ((end as usize + 31) / 32) {
        return false;
    }
    let found = search::next(marks, first, end);
    found.cell.unwrap_or(0xffff_ffff) == cell && found.read == read
}

// Makes all searches of the case.
fn are_same_searches(case: &[u8], searches: usize, marks: &[u32]) -> bool
    requires { (1024 ≤ length case.now) × (searches ≤ 55) }
{
    (0..searches).all(|i| is_same_search(case, 144 + 16 * i, marks))
}

impl Case for Next {
    ghost SIZE = { 1024 };

    const SIZE: usize = 1024;

    ghost short = { lit≤ tt };

    fn is_same_whole(case: &[u8]) -> bool {
        let pairs = binary::u32_at(case, 0) as usize;
        let searches = binary::u32_at(case, 4) as usize;
        if 16 < pairs || 55 < searches {
            return false;
        }
        let mut marks = [WORD; 32];
        let marks = &mut marks[..2 * pairs];
        copy_words(marks, case, 16);
        are_same_searches(case, searches, marks)
    }
}
