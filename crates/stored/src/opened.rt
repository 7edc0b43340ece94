// A case of open.bin. Words: lengths of the file, of scratch, of the output, of the journal; the answer. From byte 64 on the file, from
// 1088 and 2112 the output before and after, from 3136 and 3392 the journal before and after.
ghost use Rattle.std.specs.Prelude.{◌≤◌, length};
ghost use Rattle.std.proofs.Common.{lit≤};

use crate::Case;
use crate::parts::{BYTE, WORD, are_same_words, copy_words};
use number::answer_number;

#[derive(Drop)]
pub struct Open;

// Opens the case's file, so many bytes of it, into lent buffers of the case's lengths.
fn is_same_open(
    case: &[u8],
    file: usize,
    scratch: &mut [u32],
    out: &mut [u8],
    journal: &mut [u32],
) -> bool
    requires whole { (4096 ≤ length case.now) × (file ≤ 1024) }
    requires few { (length out.old ≤ 1024) × (length journal.old ≤ 64) }
{
    let n = out.len();
    out.copy_from_slice(&case[1088..1088 + n]);
    copy_words(journal, case, 3136);
    let answer = answer_number(opening::open(&case[64..64 + file], scratch, out, journal));
    answer == binary::u32_at(case, 16) as u64
        && out[..] == case[2112..2112 + n]
        && are_same_words(journal, case, 3392)
}

impl Case for Open {
    ghost SIZE = { 4096 };

    const SIZE: usize = 4096;

    ghost short = { lit≤ tt };

    fn is_same_whole(case: &[u8]) -> bool {
        let file = binary::u32_at(case, 0) as usize;
        let scratch = binary::u32_at(case, 4) as usize;
        let out = binary::u32_at(case, 8) as usize;
        let journal = binary::u32_at(case, 12) as usize;
        let mut cells = [WORD; 256];
        let mut image = [BYTE; 1024];
        let mut entries = [WORD; 64];
        file <= 1024
            && scratch <= 256
            && out <= 1024
            && journal <= 64
            && is_same_open(
                case,
                file,
                &mut cells[..scratch],
                &mut image[..out],
                &mut entries[..journal],
            )
    }
}
