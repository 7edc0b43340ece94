// A case of build.bin. Words: lengths of the file, of scratch and of the output; the answer, the node and order counts. From byte 64 on
// the file, from 1088 and 4544 the output before and after.
ghost use Rattle.std.specs.Prelude.{◌≤◌, length};
ghost use Rattle.std.proofs.Common.{lit≤};

use crate::Case;
use crate::parts::{BYTE, WORD};
use number::built_numbers;

#[derive(Drop)]
pub struct Build;

// Builds the tree of the case's file, so many bytes of it, into a lent buffer of the case's length.
fn is_same_build(case: &[u8], file: usize, scratch: &mut [u32], out: &mut [u8]) -> bool
    requires { (8192 ≤ length case.now) × (file ≤ 1024) × (length out.old ≤ 3456) }
{
    let n = out.len();
    out.copy_from_slice(&case[1088..1088 + n]);
    let told = built_numbers(mascon_tree::build_mascon_tree(&case[64..64 + file], scratch, out));
    told.answer == binary::u32_at(case, 12) as u64
        && told.nodes == binary::u32_at(case, 16) as u64
        && told.order == binary::u32_at(case, 20) as u64
        && out[..] == case[4544..4544 + n]
}

impl Case for Build {
    ghost SIZE = { 8192 };

    const SIZE: usize = 8192;

    ghost short = { lit≤ tt };

    fn is_same_whole(case: &[u8]) -> bool {
        let file = binary::u32_at(case, 0) as usize;
        let scratch = binary::u32_at(case, 4) as usize;
        let out = binary::u32_at(case, 8) as usize;
        let mut cells = [WORD; 256];
        let mut image = [BYTE; 3456];
        file <= 1024
            && scratch <= 256
            && out <= 3456
            && is_same_build(case, file, &mut cells[..scratch], &mut image[..out])
    }
}
